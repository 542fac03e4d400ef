//! Why nothing is shown, and the texts of refusals.

ghost use Rattle.std.specs.Prelude.{◌≡◌, ◌++◌, codes, IfOk};
ghost use Rattle.jc_answers.specs.Parts.{member_of};
ghost use Rattle.jc_answers.specs.JsonTexts.{text_member, object_text};
ghost use Rattle.jc_answers.specs.Refusals.{refused_object, refusal_members, refusal_answer};
ghost use Rattle.jc_looks.specs.LookFaults.{RefusesBy, IsRefusedAt};

use jc_answers::{Member, object_text, refused, refused_text};
use jc_rules::Refusal;
use std::alloc::{AllocError, Global};

/// Why nothing is shown.
#[derive(Drop)]
pub enum LookFault {
    /// The request is refused, by this answer.
    Refused(Vec<u8>),
    /// There was no memory.
    Memory,
}

impl From<AllocError> for LookFault {
    ghost use Rattle.jc_looks.specs.declared.fault.LookFault.TheVariants.{Memory as NoMemory};

    ghost from_gives = { λ _ fault. fault ≡ NoMemory };

    fn from(_: AllocError) -> Self {
        LookFault::Memory
    }
}

impl LookFault {
    /// The refusal without a place.
    pub fn of(alloc: Global, refusal: Refusal) -> Self
        ensures { RefusesBy (λ answer. answer ≡ refusal_answer refusal) result }
    {
        match refused(alloc, refusal) {
            Ok(answer) => LookFault::Refused(answer),
            Err(_) => LookFault::Memory,
        }
    }

    /// That a text is refused at an offset. Want of memory is no refusal.
    pub fn of_text(
        alloc: Global,
        text: &[u8],
        refusal: Option<Refusal>,
        place: Option<usize>,
    ) -> Self
        ensures { RefusesBy (IsRefusedAt text.now refusal place) result }
    {
        match refused_at(alloc, text, refusal, place) {
            Ok(answer) => LookFault::Refused(answer),
            Err(_) => LookFault::Memory,
        }
    }
}

/// The answer that refuses a text at an offset. Want of memory is no refusal.
pub fn refused_at(
    alloc: Global,
    text: &[u8],
    refusal: Option<Refusal>,
    place: Option<usize>,
) -> Result<Vec<u8>, AllocError>
    ensures { IfOk result (λ answer. IsRefusedAt text.now refusal place answer.items) }
{
    let (Some(refusal), Some(place)) = (refusal, place) else {
        return Err(AllocError);
    };
    refused_text(alloc, text, refusal, place)
}

/// The answer of a refusal, with a member before or behind its name and number.
pub fn refused_with(
    alloc: Global,
    before: Member<'_>,
    refusal: Refusal,
    behind: Member<'_>,
) -> Result<Vec<u8>, AllocError>
    ensures { IfOk result (λ answer. answer.items
        ≡ refused_object (member_of before.entry ++ (refusal_members refusal ++ member_of behind.entry))) }
{
    let inside = object_text(
        alloc,
        &[
            before,
            Member::string("name", refusal.name()),
            Member::number("number", refusal.number() as u64),
            behind,
        ],
    )?;
    object_text(alloc, &[Member::text("refused", inside.as_slice())])
}

/// An object with one member, which is true.
pub fn flag(alloc: Global, name: &str) -> Result<Vec<u8>, AllocError>
    ensures { IfOk result (λ answer. answer.items ≡ object_text (text_member name.now (codes "true"))) }
{
    object_text(alloc, &[Member::text(name, b"true".as_slice())])
}
