// Words put into a room, as far as there is room.
#![tactic(auto)]

ghost use Rattle.std.specs.Prelude.{◌≤◌, ◌≡◌, length, set};
ghost use Rattle.room_words.specs.Rooms.{word_if, Put};

// A word put at `n`, if it is to be and where there is room: the place after it.
pub fn put_if(room: &mut [u16], n: usize, yes: bool, w: u16) -> usize
    requires { n ≤ length room.old }
    ensures { Put room.old n (word_if yes w) result room.new }
{
    if !yes {
        return n;
    }
    if n < room.len() {
        room[n] = w;
        return n + 1;
    }
    n
}

// A word in its place, where there is room for it.
pub fn put_head(room: &mut [u16], at: usize, w: u16)
    ensures { room.new ≡ set room.old at w }
{
    if at < room.len() {
        room[at] = w;
    }
}
