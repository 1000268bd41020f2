//! What is copied out of the pages: the reply of a `show`, and the data of a request.

ghost use Rattle.std.specs.Prelude.{◌≡◌, IfOk};
ghost use Rattle.page_pool.specs.Pages.{AllLieIn, LiesIn, bytes_in, part};
ghost use Rattle.page_pool.specs.Places.{total};
ghost use Rattle.stack_ops.specs.declared.reply.Reply.TheVariants.{Shown};

use dix_base::ByteList;
use page_pool::{PagePool, Seg, SgList};
use stack_ops::Reply;
use std::alloc::{AllocError, Global};

/// The reply of a `show`: the bytes of the segment.
pub(crate) fn shown(alloc: Global, pool: &PagePool, seg: Seg) -> Result<Reply, AllocError>
    requires { LiesIn pool.now seg }
    ensures { IfOk result (λ reply. reply ≡ Shown (part pool.now seg)) }
{
    let bytes = Vec::from_slice(alloc, pool.part(seg))?;
    Ok(Reply::Shown(ByteList::from_vec(bytes)))
}

/// The data of a request, copied out of the pages.
pub(crate) fn data_of(alloc: Global, pool: &PagePool, body: &SgList) -> Result<Vec<u8>, AllocError>
    requires { AllLieIn pool.now body.now }
    ensures { IfOk result (λ v. v.items ≡ bytes_in pool.now body.now 0 (total body.now)) }
{
    let mut bytes = vec![in alloc; 0u8; body.total() as usize]?;
    pool.gather(body, 0, &mut bytes);
    Ok(bytes)
}
