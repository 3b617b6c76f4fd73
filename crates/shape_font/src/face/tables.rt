//! The tables that engines read, as bytes.
ghost use Rattle.std.specs.Prelude.{◌≡◌};

use super::FontFace;
use crate::apple::AppleTables;

impl<'a> FontFace<'a> {
    /// The table `kern`, for an engine that reads it; an empty one if the font has none.
    pub fn kern_table(&self) -> &'a [u8]
        ensures { result.now ≡ self.now.kern.now }
    {
        self.kern
    }

    /// The table `GDEF`, for an engine of OpenType layout; an empty one if the font has none.
    pub fn gdef_table(&self) -> &'a [u8]
        ensures { result.now ≡ self.now.gdef.now }
    {
        self.gdef
    }

    /// The table `GSUB`, likewise.
    pub fn gsub_table(&self) -> &'a [u8]
        ensures { result.now ≡ self.now.gsub.now }
    {
        self.gsub
    }

    /// The table `GPOS`, likewise.
    pub fn gpos_table(&self) -> &'a [u8]
        ensures { result.now ≡ self.now.gpos.now }
    {
        self.gpos
    }

    /// Apple's tables, for an engine that reads them; empty ones of those that the font lacks.
    pub fn apple_tables(&self) -> AppleTables<'a>
        ensures { result ≡ self.now.apple }
    {
        self.apple
    }

    /// The table `post`, for names that are looked up often; an empty one if the font has none.
    pub fn post_table(&self) -> &'a [u8]
        ensures { result.now ≡ self.now.post.now }
    {
        self.post
    }
}
