//! Entries that are kept by number: a fast store's node has a column for each kind. A column may be shorter than the
//! numbers are many; nothing is past its end.

ghost use Rattle.std.specs.Prelude.{◌≡◌, None, take, option_copied, IfOk, IfSome, IfNone, OnOk, OnErr, Some};
ghost use Rattle.jc_tree.specs.Numbered.{at_number, IsSetAt};

use std::alloc::AllocError;
use std::mem;

/// What the column has at the number.
pub fn value_at<X>(column: &[Option<X>], number: usize) -> Option<&X>
    ensures { option_copied result ≡ at_number column.now number }
{
    column.get(number)?.as_ref()
}

/// Puts the value at the number, and returns the one that was there. After a refusal the column is as it
/// was.
pub fn put_at<X: Drop>(
    column: &mut Vec<Option<X>>,
    number: usize,
    value: X,
) -> Result<Option<X>, AllocError>
    ensures ok { OnOk result (IsSetAt number (Some value) column.old.items column.new.items) }
    ensures former { IfOk result (λ former. former ≡ at_number column.old.items number) }
    ensures err { OnErr result (column.new.items ≡ column.old.items) }
{
    if number < column.len() {
        return Ok(mem::replace(&mut column[number], Some(value)));
    }
    let Some(end) = number.checked_add(1) else {
        return Err(AllocError);
    };
    column.reserve(end - column.len())?;
    while column.len() < number {
        column.push(None).unwrap();
    }
    column.push(Some(value)).unwrap();
    Ok(None)
}

/// Gives the number the value that it had, or none, where it has one, and returns the one that it has.
/// It takes no memory: a number without a value gets none.
pub fn restore_at<X: Drop>(
    column: &mut Vec<Option<X>>,
    number: usize,
    former: Option<X>,
) -> Option<X>
    ensures was { result ≡ at_number column.old.items number }
    ensures some { IfSome result (λ was. IsSetAt number former column.old.items column.new.items) }
    ensures none { IfNone result (column.new.items ≡ column.old.items) }
{
    let slot = column.get_mut(number)?;
    if slot.is_none() {
        return None;
    }
    mem::replace(slot, former)
}

/// Keeps what the column has at the first numbers, so many, and drops the rest.
pub fn cut<X: Drop>(column: &mut Vec<Option<X>>, most: usize)
    ensures { column.new.items ≡ take most column.old.items }
{
    column.truncate(most);
}
