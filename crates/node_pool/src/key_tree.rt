//! A tree of keys, for seeking: each key stands where the bits of its path lead from the first key, at the
//! first place there that was free. No place is taken back.
ghost use Rattle.std.specs.Prelude.{◌≡◌, ◌<◌, ◌∷◌, [], ◌++◌, length, slice_get, slice_index_or, Some, Contains, IfSome, IfNone};
ghost use Rattle.node_pool.specs.KeyTrees.{path_of, goes_left, behind, link, side, with_side, grown, IsTree, IsFree};

use crate::key::Key;
use crate::pool::Pool;

/// The two keys below one in the tree, by their index. 0 is none, since the tree begins there.
#[derive(Clone, Copy)]
pub(crate) struct Link {
    pub(crate) left: u32,
    pub(crate) right: u32,
}

/// A free place in the tree: below the key with the index `at`, on the side to which `path` goes.
#[derive(Clone, Copy)]
struct Spot {
    at: u32,
    path: u32,
}

/// The bits that lead to a key, from the highest on.
fn path_of(key: Key) -> u32
    ensures { result ≡ path_of key }
{
    let kind = key.kind.wrapping_mul(0x85EB_CA6B);
    kind.wrapping_add(key.number.wrapping_mul(0x9E37_79B1))
}

fn goes_left(path: u32) -> bool
    ensures { result ≡ goes_left path }
{
    path < 0x8000_0000
}

fn behind(path: u32) -> u32
    ensures { result ≡ behind path }
{
    path.wrapping_mul(2)
}

impl Link {
    fn side(self, path: u32) -> u32
        ensures { result ≡ side self (goes_left path) }
    {
        if goes_left(path) {
            self.left
        } else {
            self.right
        }
    }

    fn with_side(self, path: u32, key: u32) -> Link
        ensures { result ≡ with_side self (goes_left path) key }
    {
        if goes_left(path) {
            Link {
                left: key,
                right: self.right,
            }
        } else {
            Link {
                left: self.left,
                right: key,
            }
        }
    }
}

/// The index of a key, if it is in the tree.
pub(crate) fn seek(keys: &Pool<Key>, links: &Pool<Link>, key: Key) -> Option<u32>
    requires tree { IsTree keys.now.list links.now.list }
    requires some { 0 < length keys.now.list }
    ensures found { IfSome result (λ i. slice_get keys.now.list i ≡ Some key) }
    ensures absent { IfNone result (Contains keys.now.list key → ⊥) }
{
    let mut at = 0;
    let mut path = path_of(key);
    'down: loop {
        if keys.get(at) == key {
            return Some(at);
        }
        let next = links.get(at).side(path);
        if next == 0 {
            return None;
        }
        at = next;
        path = behind(path);
    }
}

/// The free place to which the path of a key leads.
fn free_spot(keys: &Pool<Key>, links: &Pool<Link>, key: Key) -> Spot
    requires tree { IsTree keys.now.list links.now.list }
    requires some { 0 < length links.now.list }
    ensures { IsFree links.now.list key result.at result.path }
{
    let mut at = 0;
    let mut path = path_of(key);
    'down: loop {
        let next = links.get(at).side(path);
        if next == 0 {
            return Spot { at, path };
        }
        at = next;
        path = behind(path);
    }
}

/// Puts a new key below another one.
fn hang(links: &mut Pool<Link>, spot: Spot)
    requires at { spot.at < length links.old.list }
    requires room { length links.old.list < links.old.capacity }
    ensures list { links.new.list ≡ grown links.old.list spot.at spot.path }
    ensures capacity { links.new.capacity ≡ links.old.capacity }
{
    let above = links.get(spot.at).with_side(spot.path, links.len());
    links.set(spot.at, above);
    links.push(Link { left: 0, right: 0 });
}

/// Makes a place in the tree for one more key.
pub(crate) fn plant(keys: &Pool<Key>, links: &mut Pool<Link>, key: Key)
    requires tree { IsTree keys.now.list links.old.list }
    requires room { length links.old.list < links.old.capacity }
    ensures tree { IsTree (keys.now.list ++ key ∷ []) links.new.list }
    ensures capacity { links.new.capacity ≡ links.old.capacity }
{
    if links.len() == 0 {
        links.push(Link { left: 0, right: 0 });
        return;
    }
    let spot = free_spot(keys, links, key);
    hang(links, spot);
}
