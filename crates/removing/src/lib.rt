// Closing in a store (02, CR 9): the places above the closed row's own move down by one, the map and the row numbers follow them, and the floor rises.
#![tactic(auto)]

ghost use Rattle.std.specs.Prelude.{true, ◌≡◌, ◌+◌, ◌≤◌, ◌<◌, length};
ghost use Rattle.store.specs.Layout.{count_of, layout_rule};
ghost use Rattle.removing.specs.Remove.{down_from, Remapped, Renumbered, Closed, Headed, Removed};

// A number above the gap is one less.
fn down_from(gap: u64, x: u64) -> u64
    ensures { result ≡ down_from gap x }
{
    if gap < x { x - 1 } else { x }
}

// The map of the first n rows: every place above `place` is one less.
fn remap(w: &mut [u64], place: usize, n: usize)
    requires { 3 + n ≤ length w.old }
    ensures { Remapped place n w.old w.new }
{
    for x in &mut w[3..3 + n] {
        *x = down_from(place as u64, *x);
    }
}

// At the first n places: every row number above `row` is one less.
fn renumber(w: &mut [u64], row: usize, n: usize)
    requires { (length w.old ≡ 1091) × (n < 64) }
    ensures { Renumbered row n w.old w.new }
{
    for q in 0..n {
        w[67 + q * 16] = down_from(row as u64, w[67 + q * 16]);
    }
}

// Closes the place and the row. n is how many are left.
fn close_place(w: &mut [u64], place: usize, row: usize, n: usize)
    requires { (length w.old ≡ 1091) × (n < 64) × (place ≤ n) × (row ≤ n) }
    ensures { Closed place row n w.old w.new }
{
    w.copy_within(83 + place * 16..83 + n * 16, 67 + place * 16);
    w.copy_within(4 + row..4 + n, 3 + row);
    remap(w, place, n);
    renumber(w, row, n);
}

// The count is n, and the floor the larger of itself and the next serial at the place.
fn set_head(w: &mut [u64], place: usize, n: usize)
    requires { (length w.old ≡ 1091) × (place < 64) }
    ensures { Headed place n w.old w.new }
{
    let floor = w[2].max(w[71 + place * 16]);
    w[1] = n as u64;
    w[2] = floor;
}

// The table with one row less.
pub fn remove(words: &mut [u64], suffixes: &mut [u8], row: usize)
    requires { (layout_rule words.old suffixes.old ≡ true) × (row < count_of words.old) }
    ensures { Removed row words.old suffixes.old words.new suffixes.new }
{
    let n = words[1] as usize - 1;
    let place = words[3 + row] as usize;
    suffixes.copy_within(place * 128 + 128..n * 128 + 128, place * 128);
    set_head(words, place, n);
    close_place(words, place, row, n);
}
