// An index of 8x8 tiles: the first that matches a tile is found without comparing it with each. A tile's key, which no allowed flip
// changes, names its bucket; the tiles of a bucket are chained from the last to the first. The tiles stay with the caller, who searches
// a chain by `bucket`, `head`, `link` and `over`.
#![tactic(auto)]

ghost use Rattle.std.specs.Prelude.{◌≡◌, ◌+◌, ◌*◌, ◌%◌, ◌<◌, ◌≤◌, IsTrue, ◌↔◌, length, get_or};
ghost use Rattle.flip.specs.Flips.{flipped};
ghost use Rattle.tileset.specs.Finding.{found_or};
ghost use Rattle.index.specs.InnerKeys.{word, hash, mix, pair, key};
ghost use Rattle.index.specs.InnerLinks.{link_in};

use flip::Flip;
use tileset::{Found, Logical};

fn pixel(tile: &[u8; 64], f: Flip, i: usize) -> u64
    requires { i < 64 }
    ensures { (result ≡ get_or (flipped f 8 8 tile.now) i 0) × (result < 256) }
{
    let k = flip::flip_at(f, i);
    u64::from(tile[k])
}

// Four pixels of the tile under a flip as one number.
#[tactic(auto, unfolding(crate::specs::InnerKeys::word))]
fn four(tile: &[u8; 64], f: Flip, n: usize) -> u64
    requires { n < 16 }
    ensures { (result ≡ word (flipped f 8 8 tile.now) n) × (result < 4294967296) }
{
    let a = pixel(tile, f, 4 * n);
    let b = pixel(tile, f, 4 * n + 1);
    let c = pixel(tile, f, 4 * n + 2);
    let d = pixel(tile, f, 4 * n + 3);
    a + 256 * b + (65536 * c + 16777216 * d)
}

// A hash with one number more.
fn more(a: u64, p: u64) -> u64
    requires { (a < 4294967296) × (p < 4294967296) }
    ensures { (result ≡ (a * 10368889 + p) % 4294967296) × (result < 4294967296) }
{
    (a * 10368889 + p) % 4294967296
}

fn mixed(a: u64) -> u64
    requires { a < 4294967296 }
    ensures { (result ≡ mix a) × (result < 4294967296) }
{
    a * a / 4294967296
}

// The hash of a tile under a flip with row y more: both numbers of a row at once, so that each compiles to one load.
fn more_row(tile: &[u8; 64], f: Flip, a: u64, y: usize) -> u64
    requires { (y < 8) × (a ≡ hash (flipped f 8 8 tile.now) (2 * y)) × (a < 4294967296) }
    ensures { (result ≡ hash (flipped f 8 8 tile.now) (2 * (y + 1))) × (result < 4294967296) }
{
    let left = more(a, four(tile, f, 2 * y));
    more(left, four(tile, f, 2 * y + 1))
}

// The hashes, mixed, of a tile and of the same turned across, both turned down or neither.
fn pair(tile: &[u8; 64], v: bool) -> u64
    ensures { (result ≡ pair v tile.now) × (result < 8589934592) }
{
    let mut a: u64 = 0;
    let mut b: u64 = 0;
    for y in 0..8 {
        a = more_row(tile, Flip { h: false, v }, a, y);
        b = more_row(tile, Flip { h: true, v }, b, y);
    }
    mixed(a) + mixed(b)
}

// The key of a tile.
#[tactic(auto, unfolding(crate::specs::InnerKeys::key))]
pub fn key(tile: &[u8; 64], flips: bool) -> u32
    ensures { result ≡ key flips tile.now }
{
    let two = pair(tile, false);
    if flips {
        return ((two + pair(tile, true)) % 4294967296) as u32;
    }
    (two % 4294967296) as u32
}

// Where the chain of a key begins.
pub fn bucket(q: u32) -> usize
    ensures { (result ≡ q % 4096) × (result < 4096) }
{
    (q % 4096) as usize
}

// Tile k where it matches, else what was found.
pub fn over(m: Option<Flip>, k: usize, found: Found) -> Found
    requires { k < 4096 }
    ensures { result ≡ found_or m k found }
{
    let Some(f) = m else {
        return found;
    };
    Found::At(Logical(k as u32), f)
}

// The link that follows tile k in bucket b, of keys and links that stand in any two arrays.
#[tactic(auto, unfolding(crate::specs::InnerLinks::link_in))]
pub fn link(keys: &[u32; 4096], next: &[u16; 4096], b: usize, k: usize) -> usize
    requires { k < 4096 }
    ensures { result ≡ link_in keys.now next.now b k }
{
    if bucket(keys[k]) != b {
        return k;
    }
    usize::from(next[k])
}

// An index: of each tile its key, and its link to the one before it in its bucket; and the head of each bucket, which is its last tile. Head and
// links are places + 1, or 0 at a chain's end. It is 32 KiB of fixed memory, for nothing here asks for any: lent, and not to be copied. The
// three are a caller's to give and to read: any arrays of these lengths are an index.
#[derive(Drop)]
pub struct Index {
    pub keys: [u32; 4096],
    pub heads: [u16; 4096],
    pub next: [u16; 4096],
    pub ghost whole: { (length keys ≡ 4096) × (length heads ≡ 4096) × (length next ≡ 4096) },
}

impl Index {
    ghost use Rattle.index.specs.Inner.{key_at, head_at, link_of, head_of, IsEmpty, Enters};

    // The index of no tiles.
    pub fn new() -> Index
        ensures { IsEmpty result }
    {
        Index {
            keys: [0; 4096],
            heads: [0; 4096],
            next: [0; 4096],
        }
    }

    // Whether tile k has the key q.
    pub fn has_key(&self, k: usize, q: u32) -> bool
        requires { k < 4096 }
        ensures { IsTrue result ↔ (key_at self.now k ≡ q) }
    {
        self.keys[k] == q
    }

    // The head of bucket b.
    pub fn head(&self, b: usize) -> usize
        requires { b < 4096 }
        ensures { result ≡ head_at self.now b }
    {
        usize::from(self.heads[b])
    }

    // The link that follows tile k in bucket b.
    pub fn link(&self, b: usize, k: usize) -> usize
        requires { k < 4096 }
        ensures { result ≡ link_of self.now b k }
    {
        link(&self.keys, &self.next, b, k)
    }

    // One tile more, tile n, whose key is q: its key, its link and the head of its bucket. Found is what a look-up of it among those before it
    // found.
    pub fn enter(&mut self, n: usize, q: u32, found: Found)
        requires { n < 4096 }
        ensures { Enters self.old n q found self.new }
    {
        let b = bucket(q);
        let head = self.heads[b];
        self.keys[n] = q;
        self.next[n] = head;
        self.heads[b] = Self::head_of(found, head, n);
    }

    // The head of a bucket after tile n: a tile that another matches is in no chain.
    fn head_of(found: Found, head: u16, n: usize) -> u16
        requires { n < 4096 }
        ensures { result ≡ head_of found head n }
    {
        let Found::At(_, _) = found else {
            return (n + 1) as u16;
        };
        head
    }
}
