ghost use Rattle.std.specs.Prelude.{◌≡◌, length};
ghost use Rattle.fb_half.specs.Merged.{freed_in};

use fb_half::{Half, leads_to_seam};

/// How many nodes of a solved part are matched to boundary vertices that the node of the plan owns. They become unmatched
/// when the part is fused at that node. Takes no memory.
pub fn freed_count(half: &Half, node: u32) -> u32
    ensures { result ≡ length (freed_in half.now node) }
{
    half.keeps();
    half.job().graph().limits();
    let scope = half.regions().scope();
    let links = half.links();
    links.keeps();
    let mut count = 0;
    for m in half.matching().matches() {
        if leads_to_seam(links, *m, scope, node) {
            count += 1;
        }
    }
    count
}
