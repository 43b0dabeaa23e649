// Where the offsets of entries and the words and slots of their summary stand, by adding and shifting alone (request N4). No product stands in
// this file, nor in any function that hands on a place from here: tests/places.
ghost use Rattle.std.specs.Prelude.{◌≡◌, ◌*◌, ◌%◌};

// Word i of four bytes begins at four times its number. The offset of entry i is word i of its list. As all numbers of 64 bits, these are
// whole below 2^64, where every place in a slice is.
pub fn word_place(i: usize) -> usize
    ensures { result ≡ (4 * i) % 18446744073709551616 }
{
    i << 2
}

// Slot k of a summary begins at eight times its number.
pub fn slot_place(k: usize) -> usize
    ensures { result ≡ (8 * k) % 18446744073709551616 }
{
    k << 3
}

// The first of the two words of slot k: twice its number.
pub fn slot_word(k: usize) -> usize
    ensures { result ≡ (2 * k) % 18446744073709551616 }
{
    k << 1
}
