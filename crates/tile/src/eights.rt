// Words of eight bytes: read from a tile, stored, and their bits exchanged.
ghost use Rattle.std.specs.Prelude.{◌≡◌, ◌+◌, ◌*◌, ◌<◌, ◌≤◌, length, get_or};
ghost use Rattle.std.proofs.lemmas.List.Edits.{sets};
ghost use Rattle.words.specs.Inner.{bytes_in};
ghost use Rattle.words.specs.Loops.{each};
ghost use Rattle.tile.specs.Inner.{WordsOf, crossed, reversed_bytes, gathered};

// The first n words of a tile, and 0 for the others.
pub fn words_of(bytes: &[u8], n: usize) -> [u64; 8]
    requires { (n ≤ 8) × (n * 8 ≤ length bytes.now) }
    ensures { WordsOf bytes.now n result }
{
    let mut ws = [0u64; 8];
    for i in 0..n {
        ws[i] = words::word_at(bytes, i * 8, false);
    }
    ws
}

// The bytes of words, from place at of out on.
pub fn put_words(out: &mut [u8], at: usize, ws: &[u64])
    requires { at + length ws.now * 8 ≤ length out.old }
    ensures { out.new ≡ sets out.old at (each (length ws.now) (λ i. bytes_in (get_or ws.now i 0))) }
{
    for i in 0..ws.len() {
        words::put_bytes(out, at + i * 8, ws[i]);
    }
}

// Bit j of byte k becomes bit k of byte j, by three exchanges.
#[tactic(auto, unfolding(crate::specs::Inner::crossed))]
pub fn cross(w: u64) -> u64
    ensures { result ≡ crossed w }
{
    let a = (w & 0xaa55aa55aa55aa55)
        | ((w & 0x00aa00aa00aa00aa) << 7)
        | ((w >> 7) & 0x00aa00aa00aa00aa);
    let b = (a & 0xcccc3333cccc3333)
        | ((a & 0x0000cccc0000cccc) << 14)
        | ((a >> 14) & 0x0000cccc0000cccc);
    (b & 0xf0f0f0f00f0f0f0f) | ((b & 0x00000000f0f0f0f0) << 28) | ((b >> 28) & 0x00000000f0f0f0f0)
}

// The bytes of a word in reverse order.
#[tactic(auto, unfolding(crate::specs::Inner::reversed_bytes))]
pub fn reverse_bytes(w: u64) -> u64
    ensures { result ≡ reversed_bytes w }
{
    let a = ((w & 0x00ff00ff00ff00ff) << 8) | ((w >> 8) & 0x00ff00ff00ff00ff);
    let b = ((a & 0x0000ffff0000ffff) << 16) | ((a >> 16) & 0x0000ffff0000ffff);
    (b << 32) | (b >> 32)
}

// Bit s of each byte of the eight words from place at on: bit k of a byte is that of word at + k.
#[tactic(auto, unfolding(crate::specs::Inner::gathered))]
pub fn gather(ws: &[u64], at: usize, s: usize) -> u64
    requires { (at + 8 ≤ length ws.now) × (s < 8) }
    ensures { result ≡ gathered ws.now at s }
{
    let m = 0x0101010101010101;
    ((ws[at] >> s) & m)
        | (((ws[at + 1] >> s) & m) << 1)
        | (((ws[at + 2] >> s) & m) << 2)
        | (((ws[at + 3] >> s) & m) << 3)
        | (((ws[at + 4] >> s) & m) << 4)
        | (((ws[at + 5] >> s) & m) << 5)
        | (((ws[at + 6] >> s) & m) << 6)
        | (((ws[at + 7] >> s) & m) << 7)
}
