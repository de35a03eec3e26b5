//! Pages in memory are changed by an act.

ghost use Rattle.std.specs.Prelude.{◌≡◌, ◌≤◌, ◌<◌, suc, All, IsSome};
ghost use Rattle.buffer_pool.specs.Pools.{frame_of};
ghost use Rattle.page_store.specs.Changing.{AreActed, used_after};

use buffer_pool::Pool;
use page_codec::Page;

/// Changes each of these pages, which have their frames, by this act.
pub(crate) fn change_all(pool: &mut Pool, pages: &[Page], act: u64)
    requires held { All (λ page. IsSome (frame_of pool.old page.block)) pages.now }
    requires act { 0 < act }
    ensures { AreActed pool.old pool.new pages.now act }
{
    for page in pages {
        pool.change(page, act);
    }
}

/// The next unused block after these pages, if `used` blocks were in use.
pub(crate) fn used_after(used: u32, pages: &[Page]) -> u32
    requires few { All (λ page. page.block < 65536) pages.now }
    ensures { result ≡ used_after used pages.now }
{
    let mut next = used;
    for page in pages {
        next = next.max(page.block + 1);
    }
    next
}
