// The writers of whole blocks.
ghost use Rattle.std.specs.Prelude.{◌≡◌, length};
ghost use Rattle.block_writer.specs.Call.{smap_outcome, plane_outcome, answer_of, target_after};
ghost use Rattle.answers.specs.Word.{wrote_word};

use answers::word;

// Writes a background as a whole SMAP block.
#[unsafe(no_mangle)]
pub extern "C" fn kg_write_smap(rows: &[u8], out: &mut [u8], w: u32, h: u32) -> u64
    ensures answer { result ≡ wrote_word (answer_of (smap_outcome w h rows.now (length out.old))) }
    ensures target_after { out.new ≡ target_after (smap_outcome w h rows.now (length out.old)) out.old }
{
    word(block_writer::write_smap(rows, out, w, h).map(|size| size as u32))
}

// Writes one plane's rows as the whole block ZP0k.
#[unsafe(no_mangle)]
pub extern "C" fn kg_write_plane(rows: &[u8], out: &mut [u8], w: u32, h: u32, k: u32) -> u64
    ensures answer { result ≡ wrote_word (answer_of (plane_outcome k w h rows.now (length out.old))) }
    ensures target_after { out.new ≡ target_after (plane_outcome k w h rows.now (length out.old)) out.old }
{
    word(block_writer::write_plane(rows, out, w, h, k).map(|size| size as u32))
}
