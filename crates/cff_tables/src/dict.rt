//! DICT data: operands and then their operator, again and again (Adobe Technical Note 5176, section
//! 4). One reading serves the Top DICT, Font DICTs and Private DICTs, since each operator has a
//! number of its own.
ghost use Rattle.std.specs.Prelude.{◌≡◌, ◌<◌, ◌≤◌, ◌+◌, ◌^◌, length};
ghost use Rattle.cff_tables.specs.Dict;

use crate::bytes::{byte_at, number_at, word_at};

/// What the operators of a DICT set, of those that outlines and names need. A place counts from the
/// start of the table, that of `subrs` from the start of its Private DICT; 0 is none. Numbers count
/// modulo 2^32.
#[derive(Clone, Copy, PartialEq, Debug)]
pub struct DictValues {
    pub charset: u32,
    pub char_strings: u32,
    pub private_at: u32,
    pub private_len: u32,
    pub subrs: u32,
    pub fd_array: u32,
    pub fd_select: u32,
    pub vstore: u32,
    pub vsindex: u32,
    pub cid: bool,
}

/// An operand, and where what follows it begins.
#[derive(Clone, Copy)]
struct Operand {
    value: u32,
    next: usize,
}

/// How far a DICT is read: what is set, the last two operands, how many there are, and where the
/// next begins.
#[derive(Clone, Copy)]
struct Reading {
    values: DictValues,
    last: u32,
    before: u32,
    count: u32,
    at: usize,
}

/// The most operands of one operator, as many as HarfBuzz takes.
const MOST_OPERANDS: u32 = 513;

/// Whether an operand begins with this byte, and not an operator.
fn begins_operand(byte: u8) -> bool
    ensures { result ≡ Dict.begins_operand byte }
{
    (28 <= byte && byte <= 30) || (32 <= byte && byte <= 254)
}

/// Two bytes in two's complement, modulo 2^32.
fn signed_word(n: u16) -> u32
    ensures { result ≡ Dict.signed_word n }
{
    let n = u32::from(n);
    if n < 32768 { n } else { n + 0xFFFF_0000 }
}

/// The value of the operand at `at`, modulo 2^32.
fn value(dict: &[u8], at: usize) -> u32
    requires { at < 2 ^ 63 }
    ensures { result ≡ Dict.value_of dict.now at }
{
    let first = u32::from(byte_at(dict, at));
    let next = u32::from(byte_at(dict, at + 1));
    if first == 28 {
        signed_word(word_at(dict, at + 1))
    } else if first == 29 {
        number_at(dict, at + 1, 4)
    } else if first == 30 {
        0
    } else if first < 139 {
        first + 4_294_967_157
    } else if first < 247 {
        first - 139
    } else if first < 251 {
        (first - 247) * 256 + next + 108
    } else {
        0xFFFF_FFFF - ((first - 251) * 256 + next + 107)
    }
}

/// Where the real number ends whose nibbles begin at `start`; none if it does not, or has one that
/// is reserved.
#[tactic(auto, using(crate::proofs::DictLemmas::real_end_next, crate::proofs::DictLemmas::real_end_low, crate::proofs::DictLemmas::real_end_here, crate::proofs::DictLemmas::real_end_over))]
fn real_end(dict: &[u8], start: usize) -> Option<usize>
    requires { start ≤ 2 ^ 63 }
    ensures { result ≡ Dict.real_end (length dict.now) dict.now start }
{
    let mut at = start;
    for _i in 0..dict.len() {
        let (high, low) = (byte_at(dict, at) / 16, byte_at(dict, at) % 16);
        if dict.len() <= at || high == 13 {
            return None;
        }
        if high == 15 {
            return Some(at + 1);
        }
        if low == 13 {
            return None;
        }
        if low == 15 {
            return Some(at + 1);
        }
        at += 1;
    }
    None
}

/// How many bytes an integer takes, by the first of them.
fn integer_size(first: u8) -> usize
    ensures value { result ≡ Dict.integer_size first }
    ensures few { result ≤ 5 }
{
    match first {
        28 => 3,
        29 => 5,
        _ if first < 247 => 1,
        _ => 2,
    }
}

/// The operand at `at`; none if it is cut off.
fn operand_at(dict: &[u8], at: usize) -> Option<Operand>
    requires { at < 2 ^ 63 }
    ensures { result ≡ Dict.operand_of dict.now at }
{
    let first = byte_at(dict, at);
    if first == 30 {
        return match real_end(dict, at + 1) {
            Some(next) => Some(Operand { value: 0, next }),
            None => None,
        };
    }
    let next = at + integer_size(first);
    if next <= dict.len() {
        Some(Operand {
            value: value(dict, at),
            next,
        })
    } else {
        None
    }
}

/// The operator at `at`: one byte, or 256 and the second byte after 12.
fn operator_at(dict: &[u8], at: usize) -> u16
    requires { at < 2 ^ 63 }
    ensures { result ≡ Dict.operator_of dict.now at }
{
    let first = u16::from(byte_at(dict, at));
    if first == 12 {
        256 + u16::from(byte_at(dict, at + 1))
    } else {
        first
    }
}

/// Where the operator at `at` ends.
fn operator_end(dict: &[u8], at: usize) -> usize
    requires { at < 2 ^ 63 }
    ensures { result ≡ Dict.operator_end dict.now at }
{
    if byte_at(dict, at) == 12 {
        at + 2
    } else {
        at + 1
    }
}

/// How many operands an operator must have, of those that are read.
fn needed(operator: u16) -> u32
    ensures { result ≡ Dict.needed operator }
{
    match operator {
        286 => 3,
        18 => 2,
        15 | 17 | 19 | 22 | 24 | 292 | 293 => 1,
        _ => 0,
    }
}

/// What is set once an operator comes.
fn set_value(operator: u16, reading: &Reading) -> DictValues
    ensures { result ≡ Dict.set_value operator reading.now }
{
    let mut values = reading.values;
    match operator {
        15 => values.charset = reading.last,
        17 => values.char_strings = reading.last,
        18 => {
            values.private_len = reading.before;
            values.private_at = reading.last;
        }
        19 => values.subrs = reading.last,
        22 => values.vsindex = reading.last,
        24 => values.vstore = reading.last,
        286 => values.cid = true,
        292 => values.fd_array = reading.last,
        293 => values.fd_select = reading.last,
        _ => {}
    }
    values
}

/// The reading after the operator that comes next; none if it has too few operands.
fn after_operator(dict: &[u8], reading: &Reading) -> Option<Reading>
    requires { reading.now.at < 2 ^ 63 }
    ensures { result ≡ Dict.after_operator dict.now reading.now }
{
    let operator = operator_at(dict, reading.at);
    if reading.count < needed(operator) {
        return None;
    }
    Some(Reading {
        values: set_value(operator, reading),
        last: 0,
        before: 0,
        count: 0,
        at: operator_end(dict, reading.at),
    })
}

/// The reading after an operand; none if there are too many.
fn after_operand(reading: &Reading, operand: Operand) -> Option<Reading>
    ensures { result ≡ Dict.after_operand reading.now operand }
{
    if MOST_OPERANDS <= reading.count {
        return None;
    }
    Some(Reading {
        values: reading.values,
        last: operand.value,
        before: reading.last,
        count: reading.count + 1,
        at: operand.next,
    })
}

/// The reading after what comes next.
fn step(dict: &[u8], reading: &Reading) -> Option<Reading>
    requires { reading.now.at < 2 ^ 63 }
    ensures { result ≡ Dict.dict_step dict.now reading.now }
{
    if !begins_operand(byte_at(dict, reading.at)) {
        return after_operator(dict, reading);
    }
    match operand_at(dict, reading.at) {
        Some(operand) => after_operand(reading, operand),
        None => None,
    }
}

/// Before the first operator.
fn begin() -> Reading
    ensures { result ≡ Dict.first_reading }
{
    Reading {
        values: DictValues {
            charset: 0,
            char_strings: 0,
            private_at: 0,
            private_len: 0,
            subrs: 0,
            fd_array: 0,
            fd_select: 0,
            vstore: 0,
            vsindex: 0,
            cid: false,
        },
        last: 0,
        before: 0,
        count: 0,
        at: 0,
    }
}

/// What the operators set; none if an operand is cut off, or an operator has too few or too many.
#[tactic(auto, using(crate::proofs::DictLemmas::dict_from_next, crate::proofs::DictLemmas::dict_from_refused, crate::proofs::DictLemmas::dict_from_done, crate::proofs::DictLemmas::dict_from_over))]
pub fn values(dict: &[u8]) -> Option<DictValues>
    ensures { result ≡ Dict.values_of dict.now }
{
    let mut reading = begin();
    for _i in 0..dict.len() {
        if dict.len() <= reading.at {
            return Some(reading.values);
        }
        match step(dict, &reading) {
            Some(next) => reading = next,
            None => return None,
        }
    }
    Some(reading.values)
}
