// Two rooms compared.
ghost use Rattle.std.specs.Prelude.{◌≡◌, length};
ghost use Rattle.compare.specs.Compare.{compared_of, answer_of, list_after};
ghost use Rattle.answers.specs.Word.{compared_word};

use answers::word;

// Which strips of two rooms differ, as a list of places; the value is how many were filled.
#[unsafe(no_mangle)]
pub extern "C" fn kg_compare(a: &[u8], b: &[u8], list: &mut [u8]) -> u64
    ensures answer { result ≡ compared_word (answer_of (compared_of a.now b.now (length list.old))) }
    ensures list_after { list.new
        ≡ list_after (compared_of a.now b.now (length list.old)) list.old }
{
    word(compare::compare(a, b, list).map(|count| count as u32))
}
