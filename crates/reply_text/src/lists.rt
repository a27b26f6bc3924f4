// A list for each number that a client can have.
ghost use Rattle.std.specs.Prelude.{[], map, IfOk};
ghost use Rattle.reply_text.specs.Lists.{HasEach};

use std::alloc::{AllocError, Global};

// An empty list for each number that a client can have.
pub(crate) fn empty_lists<'a, T>(alloc: Global) -> Result<Vec<Vec<&'a T>>, AllocError>
    ensures { IfOk result (λ lists.
        HasEach (map (λ list. map (λ item. item.now) list.items) lists.items)
        (λ client. [])) }
{
    let mut lists = Vec::with_capacity(alloc, 256)?;
    while lists.len() < 256 {
        lists.push(Vec::new(alloc))?;
    }
    Ok(lists)
}
