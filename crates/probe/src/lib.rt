// The readers of terms for programs in C and Rust, so that they can be tried from outside.
#![tactic(auto)]

ghost use Rattle.std.specs.Prelude.{◌≡◌, ◌≤◌};
ghost use Rattle.terms.specs.Vocabulary.Readers.{expression_read, guard_read};
ghost use Rattle.terms.specs.Expressions.{brackets};
ghost use Rattle.terms.specs.Vocabulary.Answers.{as_result};
ghost use Rattle.probe.specs.Vocabulary.Packed as Packed;

use layout::{Label, ObjectNumber};
use terms::{Around, Here, Limits, Parsed};

// The largest place that is told.
const FARTHEST: usize = 65535;

fn place(p: usize) -> u64
    ensures value { result ≡ Packed.place p }
    ensures upper_bound { result ≤ 65535 }
{
    p.min(FARTHEST) as u64
}

// The 32 bits of a value.
fn bits(z: i32) -> u64
    ensures value { result ≡ Packed.bits z }
    ensures upper_bound { result ≤ 4294967295 }
{
    u64::from(z.cast_unsigned())
}

// What was read as one number: place + 2^16 * kind + 2^32 * value. The kind is 0 for a value, 1 for one out of range, 2 for a refusal.
#[tactic(auto, unfolding(crate::specs::Vocabulary::Packed::packed_at, crate::specs::Vocabulary::Packed::packed_value))]
fn pack(r: Parsed<Option<i32>>) -> u64
    ensures { result ≡ Packed.packed_value r }
{
    match r {
        Ok((p, Some(z))) => place(p) + bits(z) * 0x1_0000_0000,
        Ok((p, None)) => place(p) + 0x1_0000,
        Err(p) => place(p) + 0x2_0000,
    }
}

#[tactic(auto, unfolding(crate::specs::Vocabulary::Packed::around))]
fn around(attrs: u8, locals: u8, object: u8, label: u32) -> Around
    ensures { result ≡ Packed.around attrs locals object label }
{
    Around {
        limits: Limits {
            attrs: usize::from(attrs),
            locals: usize::from(locals),
        },
        here: Here {
            object: ObjectNumber(object),
            label: Label(label),
        },
    }
}

// This and `probe_guard` stay two: each is a function of the C interface.
#[unsafe(no_mangle)]
pub extern "C" fn probe_expression(
    s: &[u8],
    at: usize,
    cells: &[i32],
    attrs: u8,
    locals: u8,
    object: u8,
    label: u32,
) -> u64
    ensures { result ≡ Packed.packed_value (as_result (expression_read cells.now (Packed.around attrs locals object label) s.now brackets at)) }
{
    pack(terms::expressions::expression(
        s,
        at,
        cells,
        around(attrs, locals, object, label),
        terms::expressions::BRACKETS,
    ))
}

#[unsafe(no_mangle)]
pub extern "C" fn probe_guard(
    s: &[u8],
    at: usize,
    cells: &[i32],
    attrs: u8,
    locals: u8,
    object: u8,
    label: u32,
) -> u64
    ensures { result ≡ Packed.packed_value (as_result (guard_read cells.now (Packed.around attrs locals object label) s.now brackets at)) }
{
    pack(terms::guards::guard(
        s,
        at,
        cells,
        around(attrs, locals, object, label),
        terms::expressions::BRACKETS,
    ))
}
