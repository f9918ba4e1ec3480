// The program: a velocity grid on standard input; on standard output its counts, extent, spacings
// and nodes, or the refusal in words with the place.
//
// All that is said of the text is proved in `grid_lines`; here the bytes are read and written, and
// nothing else. The room for the grid holds one byte more than the longest grid has, so that a
// longer input is told from it; the rooms for the texts are longer than any of them.
#![tactic(auto)]

use std::io;

fn main(rt: HostRuntime) -> io::Result<()> {
    let mut bytes = [0u8; 98345];
    let n = input::read_full(&mut rt.stdin(), &mut bytes)?;
    tell(&rt, &bytes[..n])
}

fn tell(out: &impl Print, g: &[u8]) -> io::Result<()> {
    match grid_rules::check_grid(g) {
        Ok(()) => {
            tell_head(out, g)?;
            tell_nodes(out, g)
        }
        Err(refusal) => tell_refusal(out, g, refusal),
    }
}

fn tell_head(out: &impl Print, g: &[u8]) -> io::Result<()> {
    let mut room = [0u8; 65536];
    let m = grid_lines::put_head(&mut room, 0, g);
    out.write_all(&room[..m])
}

fn tell_node(out: &impl Print, g: &[u8], k: u32) -> io::Result<()> {
    let mut room = [0u8; 4096];
    let m = grid_lines::put_node(&mut room, 0, g, k);
    out.write_all(&room[..m])
}

// A grid in rule has 24 bytes a node after the first 40, and at most 4,096 nodes.
fn tell_nodes(out: &impl Print, g: &[u8]) -> io::Result<()> {
    for k in 0..4096u32 {
        if g.len() < 64 + 24 * (k as usize) {
            break;
        }
        tell_node(out, g, k)?;
    }
    Ok(())
}

fn tell_refusal(out: &impl Print, g: &[u8], refusal: u32) -> io::Result<()> {
    let mut room = [0u8; 65536];
    let p = grid_lines::put_refusal(&mut room, 0, g, refusal);
    let m = grid_lines::put_seen(&mut room, p, g);
    out.write_all(&room[..m])
}
