// Where the values of a mode's colours stand in its words.
ghost use Rattle.std.specs.Prelude.{◌≡◌, ◌+◌, ◌^◌, ◌<◌, ◌≤◌};
ghost use Rattle.words.specs.Inner.{bits_for, start_of};
ghost use Rattle.mode.specs.Table.{row};
ghost use Rattle.color.specs.Color.{coloring};
ghost use Rattle.color.specs.Channel.{bits_up_to};

use crate::{can_pack, put_color, some_above, value_at};
use words::refusal::Refusal;

// Whether a word of the mode has grays, and four of them; its bytes, and whether the most stands first; the top and the bits of a component, as many
// as red or the first gray has; the places where r, g and b begin, or the grays. They are the mode's own, and so have one byte or two, components of at
// most five bits up to the top, and no place above the word. The mode is its number: a copy of a struct whose field
// has a model, as a `Mode` has, cannot be passed by value yet, and these are.
#[derive(Clone, Copy)]
pub struct ColorPlaces {
    pub mode: u32,
    pub gray: bool,
    pub four: bool,
    pub size: usize,
    pub most: bool,
    pub top: u32,
    pub bits: u32,
    pub first: u32,
    pub second: u32,
    pub third: u32,
    pub fourth: u32,
    ghost is_mode: { mode < 16 },
    ghost gray_is: { gray ≡ (coloring mode).gray },
    ghost four_is: { four ≡ (coloring mode).four },
    ghost size_is: { size ≡ (coloring mode).size },
    ghost most_is: { most ≡ (coloring mode).most },
    ghost top_is: { top ≡ (row mode).top },
    ghost bits_are: { bits ≡ bits_for 0 (coloring mode).fields },
    ghost first_is: { first ≡ start_of 0 0 (coloring mode).fields },
    ghost second_is: { second ≡ start_of 0 1 (coloring mode).fields },
    ghost third_is: { third ≡ start_of 0 2 (coloring mode).fields },
    ghost fourth_is: { fourth ≡ start_of 0 3 (coloring mode).fields },
    ghost bytes: { (0 < size) × (size ≤ 2) },
    ghost component: { (top ≤ 31) × (bits ≤ 5) × (bits ≡ bits_up_to top) × (2 ^ bits ≡ top + 1) },
    ghost inside: { (first ≤ 16) × (second ≤ 16) × (third ≤ 16) × (fourth ≤ 16) },
}

impl ColorPlaces {
    ghost use Rattle.std.specs.Prelude.{◌++◌, ◌*◌, ◌/◌, length, drop, IfOk};
    ghost use Rattle.std.proofs.lemmas.List.Edits.{sets};
    ghost use Rattle.words.specs.Answers.{overwrite};
    ghost use Rattle.words.specs.Loops.{each};
    ghost use Rattle.words.specs.InnerResults.{answered};
    ghost use Rattle.color.specs.Color.{pack_says, unpack_says, unpackable, packed_size, color_count};
    ghost use Rattle.color.specs.Inner.{Within, AllWithin, gray_in, word_with, color_word, four_word, color_bytes, gray_at, color_from, four_from, word_from};

    // The word that holds up to four values: r, g and b, or grays.
    pub fn word_with(self, a: u32, b: u32, c: u32, d: u32) -> u32
        requires { (a < 256) × (b < 256) × (c < 256) × (d < 256) }
        ensures { result ≡ word_with self a b c d }
    {
        words::up(a, self.first)
            + words::up(b, self.second)
            + words::up(c, self.third)
            + words::up(d, self.fourth)
    }

    // The gray of colour i: "gray modes read red only".
    pub fn gray_in(self, colors: &[u8], i: usize) -> u32
        requires { Within self.top colors.now i }
        ensures { (result ≡ gray_in self.top colors.now i) × (result < 256) }
    {
        self.top - u32::from(colors[4 * i])
    }

    // The word of colour i, where a word has one.
    pub fn color_word(self, colors: &[u8], i: usize) -> u32
        requires { Within self.top colors.now i }
        ensures { result ≡ color_word self colors.now i }
    {
        if self.gray {
            return self.word_with(self.gray_in(colors, i), 0, 0, 0);
        }
        let r = u32::from(colors[4 * i]);
        let g = u32::from(colors[4 * i + 1]);
        let b = u32::from(colors[4 * i + 2]);
        self.word_with(r, g, b, 0)
    }

    // The word of four grays.
    pub fn four_word(self, colors: &[u8]) -> u32
        requires { AllWithin self.top colors.now 4 }
        ensures { result ≡ four_word self colors.now }
    {
        let a = self.gray_in(colors, 0);
        let b = self.gray_in(colors, 1);
        let c = self.gray_in(colors, 2);
        let d = self.gray_in(colors, 3);
        self.word_with(a, b, c, d)
    }

    // The words of the colours, one after the other.
    pub fn put_words(self, colors: &[u8], out: &mut [u8])
        requires within { AllWithin self.top colors.now (length colors.now / 4) }
        requires space { length colors.now / 4 * self.size ≤ length out.old }
        ensures { out.new ≡ each (length colors.now / 4) (color_bytes self colors.now) ++ drop (length colors.now / 4 * self.size) out.old }
    {
        for i in 0..colors.len() / 4 {
            let word = self.color_word(colors, i);
            words::put_word(out, i * self.size, self.size, self.most, word);
        }
    }

    // How many bytes there are to be written.
    pub fn packed_size(self, len: usize) -> usize
        ensures { result ≡ packed_size self.four self.size len }
    {
        if self.four {
            self.size
        } else {
            len / 4 * self.size
        }
    }

    // How many bytes there are to be written, where nothing is refused.
    pub fn pack_says(self, colors: &[u8], space: usize) -> Result<usize, Refusal>
        ensures says { answered result ≡ pack_says self.mode colors.now space }
        ensures size { IfOk result (λ n. n ≡ packed_size self.four self.size (length colors.now)) }
    {
        if !can_pack(self.four, colors.len()) {
            return Err(Refusal::Length);
        }
        if some_above(self.top, colors) {
            return Err(Refusal::Component);
        }
        let size = self.packed_size(colors.len());
        if space < size {
            return Err(Refusal::Output);
        }
        Ok(size)
    }

    // The gray at a place of a word.
    pub fn put_gray(self, word: u32, place: u32, out: &mut [u8], at: usize)
        requires { (place < 32) × (at + 4 ≤ length out.old) }
        ensures { out.new ≡ sets out.old at (gray_at self word place) }
    {
        let gray = self.top - value_at(word, place, self.bits);
        put_color(out, at, gray, gray, gray);
    }

    // The colour of a word that has one.
    pub fn put_color_from(self, word: u32, out: &mut [u8], at: usize)
        requires { at + 4 ≤ length out.old }
        ensures { out.new ≡ sets out.old at (color_from self word) }
    {
        if self.gray {
            self.put_gray(word, self.first, out, at);
            return;
        }
        let r = value_at(word, self.first, self.bits);
        let g = value_at(word, self.second, self.bits);
        let b = value_at(word, self.third, self.bits);
        put_color(out, at, r, g, b);
    }

    // The colours of n words, one after the other. Where a word begins is counted: computed of i, it made unpacking slower by a half.
    pub fn put_colors(self, bytes: &[u8], n: usize, out: &mut [u8])
        requires words { n * self.size ≤ length bytes.now }
        requires space { n * 4 ≤ length out.old }
        ensures { out.new ≡ each n (λ i. color_from self (word_from self bytes.now (i * self.size))) ++ drop (n * 4) out.old }
    {
        let mut from = 0;
        for i in 0..n {
            let word = words::get_word(bytes, from, self.size, self.most);
            self.put_color_from(word, out, i * 4);
            from += self.size;
        }
    }

    // The four grays of a word.
    pub fn put_four(self, word: u32, out: &mut [u8])
        requires { 16 ≤ length out.old }
        ensures { out.new ≡ overwrite out.old (four_from self word) }
    {
        self.put_gray(word, self.first, out, 0);
        self.put_gray(word, self.second, out, 4);
        self.put_gray(word, self.third, out, 8);
        self.put_gray(word, self.fourth, out, 12);
    }

    // Whole words; one where it has four grays. Ngp, whose words have one gray, takes "exactly four bytes".
    pub fn can_unpack(self, len: usize) -> bool
        ensures { result ≡ unpackable self.mode len }
    {
        if self.four {
            return len == self.size;
        }
        if self.gray {
            return len == 4;
        }
        len % self.size == 0
    }

    // How many colours there are to be written.
    pub fn color_count(self, len: usize) -> usize
        ensures { result ≡ color_count self.four self.size len }
    {
        if self.four { 4 } else { len / self.size }
    }

    // How many colours there are to be written, where nothing is refused. 11 is tested by division, so that nothing overflows.
    pub fn unpack_says(self, len: usize, space: usize) -> Result<usize, Refusal>
        ensures says { answered result ≡ unpack_says self.mode len space }
        ensures count { IfOk result (λ n. n ≡ color_count self.four self.size len) }
    {
        if !self.can_unpack(len) {
            return Err(Refusal::Length);
        }
        let n = self.color_count(len);
        if space / 4 < n {
            return Err(Refusal::Output);
        }
        Ok(n)
    }
}
