//! The syllables of a text, numbered.
//!
//! Each item gets the byte of its syllable: its number, 1 to 15 round and round, and its kind. The
//! first syllable of a list of categories is found by the table of a grammar, in time that grows
//! with the list alone.
ghost use Rattle.std.specs.Prelude.{◌≡◌, ◌<◌, length, drop};
ghost use Rattle.shape_items.specs.Buffer.{limit_of};
ghost use Rattle.shape_buffer.specs.Outcome.{Made};
ghost use Rattle.syllables.specs.Grammar.{Grammar, first_syllable};
ghost use Rattle.syllables.specs.Machines.{IsMachineOf, by_table};
ghost use Rattle.syllables.specs.Reading.{IsVain, scan_at};
ghost use Rattle.syllabic.specs.Scanning;
ghost use Rattle.syllabic.specs.Scanning.{categories_of};

use shape_buffer::buffer::{hb_buffer_t, hb_glyph_info_t};
use syllables::reading::{Scan, Stretch, begin, nowhere, read, remembered};
use syllables::{Machine, Syllable};

/// Where a walk stands that numbers syllables: the byte of the present one, how many of its items
/// are left, and the number of the next one.
#[derive(Clone, Copy, Debug)]
pub struct Numbering {
    pub byte: u8,
    pub left: usize,
    pub serial: u8,
}

/// The same, with the places behind which a scan found nothing.
#[derive(Clone, Copy, Debug)]
struct Walk {
    numbering: Numbering,
    vain: Stretch,
}

/// The scan for the syllable that begins at a place.
fn scan(machine: Machine<'_>, vain: Stretch, infos: &[hb_glyph_info_t], place: usize) -> Scan
    requires { place < length infos.now }
    ensures { result ≡ scan_at machine.entry vain place (categories_of infos.now) }
{
    let mut scan = begin(machine, place);
    for i in place..infos.len() {
        let category = infos[i]._hb_glyph_info_get_shaper_category();
        scan = read(machine, vain, scan, category, i + 1);
        if scan.over {
            return scan;
        }
    }
    scan
}

/// The number of the next syllable: 1 to 15 round and round.
fn next_serial(serial: u8) -> u8
    ensures { result ≡ Scanning.next_serial serial }
{
    if serial < 15 { serial + 1 } else { 1 }
}

/// The byte of a syllable: its number and its kind.
fn syllable_byte(serial: u8, kind: u8) -> u8
    ensures { result ≡ Scanning.syllable_byte serial kind }
{
    serial % 16 * 16 + kind % 16
}

/// Where a walk stands that begins a syllable.
fn begun(serial: u8, syllable: Syllable) -> Numbering
    ensures { result ≡ Scanning.begun serial syllable }
{
    Numbering {
        byte: syllable_byte(serial, syllable.kind),
        left: syllable.count,
        serial: next_serial(serial),
    }
}

/// Where a walk stands at an item, once a syllable begins there if none is left.
fn entered(machine: Machine<'_>, walk: Walk, infos: &[hb_glyph_info_t], i: usize) -> Walk
    requires place { i < length infos.now }
    requires vain { IsVain machine (categories_of infos.now) walk.vain }
    ensures numbering { result.numbering ≡ Scanning.entered (by_table machine.entry) walk.numbering (drop i infos.now) }
    ensures vain { IsVain machine.entry (categories_of infos.now) result.vain }
{
    if walk.numbering.left != 0 {
        return walk;
    }
    let scan = scan(machine, walk.vain, infos, i);
    Walk {
        numbering: begun(walk.numbering.serial, scan.found),
        vain: remembered(scan, walk.vain),
    }
}

/// Puts an item into a syllable.
fn put_in_syllable(buffer: &mut hb_buffer_t, i: usize, byte: u8)
    requires { i < length buffer.old.items }
    ensures made { buffer.new ≡ Scanning.put_in_syllable byte i buffer.old }
    ensures len { length buffer.new.items ≡ length buffer.old.items }
    ensures limit { limit_of buffer.new ≡ limit_of buffer.old }
{
    let mut info = buffer.infos()[i];
    info._hb_glyph_info_set_syllable(byte);
    buffer.set_info(i, info);
}

/// Where a walk stands after an item.
fn passed(numbering: Numbering) -> Numbering
    ensures { result ≡ Scanning.passed numbering }
{
    Numbering {
        byte: numbering.byte,
        left: numbering.left.saturating_sub(1),
        serial: numbering.serial,
    }
}

/// Numbers the item at a place, and returns where the walk stands after it.
fn number_at(machine: Machine<'_>, walk: Walk, buffer: &mut hb_buffer_t, i: usize) -> Walk
    requires place { i < length buffer.old.items }
    requires vain { IsVain machine (categories_of buffer.old.items) walk.vain }
    ensures made { buffer.new ≡ Scanning.numbered_at (by_table machine.entry) walk.numbering i buffer.old }
    ensures value { result.numbering ≡ Scanning.number_at (by_table machine.entry) walk.numbering i buffer.old }
    ensures vain { IsVain machine.entry (categories_of buffer.new.items) result.vain }
    ensures len { length buffer.new.items ≡ length buffer.old.items }
    ensures limit { limit_of buffer.new ≡ limit_of buffer.old }
{
    let here = entered(machine, walk, buffer.infos(), i);
    put_in_syllable(buffer, i, here.numbering.byte);
    Walk {
        numbering: passed(here.numbering),
        vain: here.vain,
    }
}

/// Numbers the syllables of a text by its categories: each item gets the byte of its syllable,
/// which is the first one that the grammar of the table has in the rest of the text. `skipped`
/// items at the beginning belong to none, whose byte is 0.
pub fn number_syllables(machine: Machine<'_>, skipped: usize, buffer: &mut hb_buffer_t)
    ensures made { Made (Scanning.syllables_numbered (by_table machine.entry) skipped) buffer.old buffer.new }
    ensures grammar { (g : Grammar) → IsMachineOf machine.entry g
        → Made (Scanning.syllables_numbered (first_syllable g machine.entry.other) skipped) buffer.old buffer.new }
{
    let mut walk = Walk {
        numbering: Numbering {
            byte: 0,
            left: skipped,
            serial: 1,
        },
        vain: nowhere(),
    };
    for i in 0..buffer.len() {
        walk = number_at(machine, walk, buffer, i);
    }
}
