//! Pools and keys.
use node_pool::{Key, Keys, Pool};
use std::test::Fail;
use word_base::NoMemory;

#[derive(Clone, Copy, Debug, PartialEq, Eq)]
enum Node {
    Nothing,
    Word(u32),
    Sum { left: u32, right: u32 },
}

#[test]
fn words_are_cleared_and_refilled(rt: HostRuntime) -> Result<(), Fail> {
    let mut pool = Pool::make(rt.alloc(), 2)?;
    let (first, second) = (pool.push(7), pool.push(9));
    pool.clear();
    let again = pool.push(5);
    assert_eq!(rt; (first, second, again), (0, 1, 0));
    assert_eq!(rt; (pool.len(), pool.get(0), pool.capacity()), (1, 5, 2));
    Ok(())
}

#[test]
fn nodes_are_set(rt: HostRuntime) -> Result<(), Fail> {
    let sum = Node::Sum { left: 0, right: 0 };
    let mut nodes = Pool::make(rt.alloc(), 4)?;
    nodes.push(Node::Word(4));
    nodes.push(sum);
    nodes.push(Node::Nothing);
    assert_eq!(rt; nodes.get(1), sum);
    nodes.set(1, Node::Word(8));
    assert_eq!(rt;
        (nodes.get(0), nodes.get(1), nodes.get(2)),
        (Node::Word(4), Node::Word(8), Node::Nothing)
    );
    Ok(())
}

/// A pool without a place, and one of more bytes than the machine can address: 2 ^ 31 + 8 for each of 2 ^ 32 - 1 places.
#[test]
fn pools_of_any_size(rt: HostRuntime) -> Result<(), Fail> {
    let mut pool: Pool<Node> = Pool::make(rt.alloc(), 0)?;
    pool.clear();
    assert_eq!(rt; (pool.len(), pool.capacity()), (0, 0));
    let huge: Result<Pool<[u64; 0x1000_0001]>, NoMemory> = Pool::make(rt.alloc(), u32::MAX);
    assert!(rt; huge.is_err());
    Ok(())
}

/// The index of a key, and 99 for none, where each that is not there is added if that is wanted.
fn index_of(keys: &mut Keys, kind: u32, number: u32, adds: bool) -> u32 {
    let key = Key { kind, number };
    match keys.find(key) {
        Some(i) => i,
        None if adds && keys.len() < keys.capacity() => keys.add(key),
        None => 99,
    }
}

/// The kind and the number of the key with that index.
fn key_at(keys: &Keys, i: u32) -> Option<(u32, u32)> {
    if i < keys.len() {
        let key = keys.at(i);
        Some((key.kind, key.number))
    } else {
        None
    }
}

/// What is sought, whether it is added where it is not there, and its index. The keys (0, 0x6BDDB0DB) and
/// (1, 0) have one path, and the two behind them differ in one bit and share a place.
#[test]
fn keys_are_found_by_both_words(rt: HostRuntime) -> Result<(), Fail> {
    let mut keys = Keys::make(rt.alloc(), 7)?;
    for (kind, number, adds, index) in rows! {
        (0, 0, false, 99);
        (7, 5, true, 0);
        (5, 7, false, 99);
        (7, 6, true, 1);
        (6, 5, true, 2);
        (7, 5, true, 0);
        (0, 0x6BDD_B0DB, true, 3);
        (1, 0, true, 4);
        (0, 0xFFFF_0000, true, 5);
        (0, 0x7FFF_0000, true, 6);
        (0, 0xFFFF_0000, false, 5);
        (0, 0x7FFF_0000, false, 6);
        (1, 0, false, 4);
        (0, 0x6BDD_B0DB, false, 3);
        (1, 1, true, 99);
    } {
        assert_eq!(rt; index_of(&mut keys, kind, number, adds), index);
    }
    assert_eq!(rt;
        (key_at(&keys, 2), key_at(&keys, 6)),
        (Some((6, 5)), Some((0, 0x7FFF_0000)))
    );
    keys.clear();
    assert_eq!(rt; index_of(&mut keys, 7, 5, false), 99);
    assert_eq!(rt; (index_of(&mut keys, 7, 6, true), keys.capacity()), (0, 7));
    Ok(())
}
