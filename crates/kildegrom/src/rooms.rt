// A room's record, its load, its objects' headers and names, and its listing.
ghost use Rattle.std.specs.Prelude.{◌≡◌};
ghost use Rattle.room.specs.Test.{number_of};
ghost use Rattle.objects.specs.Record.{record_test, record_after};
ghost use Rattle.objects.specs.Object.{place_number, header_call, header_after};
ghost use Rattle.objects.specs.Name.{name_place, place_word, name_number};
ghost use Rattle.object_list.specs.List.{list_test, rows_after};
ghost use Rattle.play.specs.Bytes.{lent, test_of, after_load};

use answers::number;

// The room's record.
#[unsafe(no_mangle)]
pub extern "C" fn kg_record(room: &[u8], out: &mut [u8]) -> u32
    ensures number { result ≡ number_of (record_test room.now out.old) }
    ensures record_after { out.new ≡ record_after (record_test room.now out.old) out.old }
{
    number(objects::record::record(room, out))
}

// Loads a room: pixels, masks and an empty session.
#[unsafe(no_mangle)]
pub extern "C" fn kg_load(
    room: &[u8],
    session: &mut [u8],
    pixels: &mut [u8],
    masks: &mut [u8],
) -> u32
    ensures number { result ≡ number_of (test_of room.now (lent session.old pixels.old masks.old)) }
    ensures lent_after { lent session.new pixels.new masks.new
        ≡ after_load room.now (lent session.old pixels.old masks.old) }
{
    number(load::load(room, session, pixels, masks))
}

// An object's header.
#[unsafe(no_mangle)]
pub extern "C" fn kg_header(room: &[u8], out: &mut [u8], object: u32) -> u32
    ensures number { result ≡ place_number (header_call room.now out.old object) }
    ensures header_after { out.new ≡ header_after room.now (header_call room.now out.old object) out.old }
{
    number(objects::object::header_record(room, out, object))
}

// Where an object's name stands in the room: its start in the low 32 bits, its length in the high 32; 0 where there is none.
#[unsafe(no_mangle)]
pub extern "C" fn kg_name(room: &[u8], object: u32) -> u64
    ensures { result ≡ place_word (name_place room.now object) }
{
    objects::name::name_word(room, object)
}

// The number of that call.
#[unsafe(no_mangle)]
pub extern "C" fn kg_name_number(room: &[u8], object: u32) -> u32
    ensures { result ≡ name_number room.now object }
{
    number(objects::name::name_number(room, object))
}

// The listing of a room: its record into `out`, and a row of 32 bytes for each object.
#[unsafe(no_mangle)]
pub extern "C" fn kg_list(room: &[u8], out: &mut [u8], rows: &mut [u8]) -> u32
    ensures number { result ≡ number_of (list_test room.now out.old rows.old) }
    ensures record_after { out.new ≡ record_after (list_test room.now out.old rows.old) out.old }
    ensures rows_after { rows.new
        ≡ rows_after room.now (list_test room.now out.old rows.old) rows.old }
{
    number(object_list::list(room, out, rows))
}
