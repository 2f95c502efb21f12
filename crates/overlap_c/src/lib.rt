// The overlap desk, for C programs: its two calls under the names that include/overlap.h declares. Each says what the library's own function of that name
// says, word for word, and only calls it.
#![tactic(auto)]

ghost use Rattle.std.specs.Prelude.{◌/◌, ◌≡◌, length};
ghost use Rattle.word_bytes.specs.Bytes.{words_in};
ghost use Rattle.pairing.specs.Meeting.{meeting};
ghost use Rattle.pairing.specs.Lent.{Told};
ghost use Rattle.overlap.specs.Table.{word_from, table_number, table_leaves};

// Whether two rules can meet, by their patterns' bytes: 100 they cannot, 101 it is not settled, 200 and the words of a report that both match, which
// the room then holds; or the refusal's number.
#[unsafe(no_mangle)]
pub extern "C" fn overlap_pair(word_0: u32, first: &[u8], second: &[u8], room: &mut [u8]) -> u32
    ensures { Told (meeting (length room.old / 2) (word_from word_0) (words_in first.now) (words_in second.now)) 0 room.old result room.new }
{
    overlap::overlap_pair(word_0, first, second, room)
}

// The table of a sheet of live rules: the refusal's number, or 0. Each row has room for a report of `report` words.
#[unsafe(no_mangle)]
pub extern "C" fn overlap_sheet(sheet: &[u8], report: u32, room: &mut [u8]) -> u32
    ensures value { result ≡ table_number report (words_in sheet.now) (length room.old / 2) }
    ensures room_after { room.new ≡ table_leaves report (words_in sheet.now) room.old }
{
    overlap::overlap_sheet(sheet, report, room)
}
