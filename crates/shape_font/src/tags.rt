//! The tags of the tables that a face reads.

/// `head`.
pub(crate) const HEAD: u32 = 0x6865_6164;

/// `hhea`.
pub(crate) const HHEA: u32 = 0x6868_6561;

/// `maxp`.
pub(crate) const MAXP: u32 = 0x6d61_7870;

/// `hmtx`.
pub(crate) const HMTX: u32 = 0x686d_7478;

/// `vhea`.
pub(crate) const VHEA: u32 = 0x7668_6561;

/// `vmtx`.
pub(crate) const VMTX: u32 = 0x766d_7478;

/// `VORG`.
pub(crate) const VORG: u32 = 0x564f_5247;

/// `OS/2`.
pub(crate) const OS2: u32 = 0x4f53_2f32;

/// `cmap`.
pub(crate) const CMAP: u32 = 0x636d_6170;

/// `loca`.
pub(crate) const LOCA: u32 = 0x6c6f_6361;

/// `glyf`.
pub(crate) const GLYF: u32 = 0x676c_7966;

/// `GSUB`.
pub(crate) const GSUB: u32 = 0x4753_5542;

/// `GPOS`.
pub(crate) const GPOS: u32 = 0x4750_4f53;

/// `GDEF`.
pub(crate) const GDEF: u32 = 0x4744_4546;

/// `morx`.
pub(crate) const MORX: u32 = 0x6d6f_7278;

/// `kerx`.
pub(crate) const KERX: u32 = 0x6b65_7278;

/// `trak`.
pub(crate) const TRAK: u32 = 0x7472_616b;

/// `feat`.
pub(crate) const FEAT: u32 = 0x6665_6174;

/// `ltag`.
pub(crate) const LTAG: u32 = 0x6c74_6167;

/// `ankr`.
pub(crate) const ANKR: u32 = 0x616e_6b72;

/// `kern`.
pub(crate) const KERN: u32 = 0x6b65_726e;

/// `fvar`.
pub(crate) const FVAR: u32 = 0x6676_6172;

/// `avar`.
pub(crate) const AVAR: u32 = 0x6176_6172;

/// `HVAR`.
pub(crate) const HVAR: u32 = 0x4856_4152;

/// `VVAR`.
pub(crate) const VVAR: u32 = 0x5656_4152;

/// `gvar`.
pub(crate) const GVAR: u32 = 0x6776_6172;

/// `MVAR`.
pub(crate) const MVAR: u32 = 0x4d56_4152;

/// `post`.
pub(crate) const POST: u32 = 0x706f_7374;

/// `CFF `.
pub(crate) const CFF: u32 = 0x4346_4620;

/// `CFF2`.
pub(crate) const CFF2: u32 = 0x4346_4632;

/// `sbix`.
pub(crate) const SBIX: u32 = 0x7362_6978;

/// `COLR`.
pub(crate) const COLR: u32 = 0x434f_4c52;

/// `CBLC`.
pub(crate) const CBLC: u32 = 0x4342_4c43;

/// `CBDT`.
pub(crate) const CBDT: u32 = 0x4342_4454;
