// A field against the second preceding one (02, A1; 000, 5.2.3).
ghost use Rattle.std.specs.Prelude.{◌≡◌, cond, ◌+◌, ◌<◌, length};
ghost use Rattle.picture.specs.Fields as fields;
ghost use Rattle.picture.specs.Fields.{is_brighter, is_darker, brighter_in, darker_in, told_by, held_after};

use crate::Told;

// The pixels that went brighter by 32 or more, and those that went darker.
#[derive(Clone, Copy)]
struct Counts {
    brighter: u16,
    darker: u16,
}

// Current minus older.
fn difference(current: u8, older: u8) -> i16
    ensures { result ≡ fields.difference current older }
{
    current as i16 - older as i16
}

// A change is 32 or more either way (02, A1).
fn is_brighter(difference: i16) -> bool
    ensures { result ≡ is_brighter difference }
{
    32 <= difference
}

fn is_darker(difference: i16) -> bool
    ensures { result ≡ is_darker difference }
{
    difference <= -32
}

// A count with one pixel more, where it is one.
fn with_one(n: u16, counts: bool) -> u16
    requires { n < 960 }
    ensures { result ≡ n + cond counts 1 0 }
{
    if counts { n + 1 } else { n }
}

fn counted(field: &[u8; 960], older: &[u8; 960]) -> Counts
    requires { (length field.now ≡ 960) × (length older.now ≡ 960) }
    ensures { (result.brighter ≡ brighter_in field.now older.now) × (result.darker ≡ darker_in field.now older.now) }
{
    let mut brighter = 0;
    let mut darker = 0;
    for i in 0..960 {
        let d = difference(field[i], older[i]);
        brighter = with_one(brighter, is_brighter(d));
        darker = with_one(darker, is_darker(d));
    }
    Counts { brighter, darker }
}

// What the end of the field tells, with held fields before it.
pub(crate) fn told(held: u8, field: &[u8; 960], older: &[u8; 960]) -> Told
    requires { (length field.now ≡ 960) × (length older.now ≡ 960) }
    ensures { result ≡ told_by held field.now older.now }
{
    if held < 2 {
        return Told::Nothing;
    }
    let c = counted(field, older);
    Told::Value {
        fingerprint: ((c.brighter + c.darker) / 4) as u8,
        brighter: c.brighter,
        darker: c.darker,
    }
}

// How many fields are held once one more has ended: two are enough.
#[tactic(auto, unfolding(crate::specs::Fields::held_after))]
pub(crate) fn held_after(held: u8) -> u8
    ensures { result ≡ held_after held }
{
    if held < 2 { held + 1 } else { 2 }
}
