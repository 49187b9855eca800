// The undelivered messages as linked nodes, and how one is added and one is taken out.
ghost use Rattle.std.specs.Map.{lookup};
ghost use Rattle.std.specs.Prelude.{ℕ, ◌≡◌, ◌+◌, ◌==◌, ◌≤◌, ◌<◌, ◌∷◌, [], ◌++◌, None, Some, IfNone, MatchOption, slice_get, OnOk, IsOk, if◌then◌else◌};
ghost use Rattle.indexmap.specs.IndexMap.{spare};
ghost use Rattle.slab.specs.Slab.{ContainsKey, get, slab_len};
ghost use Rattle.vm_ports.specs.Kept.{AreLinked, ends_after, ends_on, first_or, is_none_key, key_or, last_of, places, places_without, room_of, with_newer};
ghost use Rattle.vm_ports.specs.Kept.{with_next, with_older};
ghost use Rattle.vm_ports.specs.Nodes.{letters_of};
ghost use Rattle.vm_ports.specs.Ports.{oldest, queue};

use crate::node::Node;
use indexmap::IndexMap;
use slab::Slab;
use std::alloc::Global;
use vm_base::{ChannelId, NoMemory};

/// The keys of the first and the last node of a channel.
#[derive(Clone, Copy)]
pub struct Ends {
    pub first: usize,
    pub last: usize,
}

/// The nodes, with the first and the last in the order of sending, and the ends of each channel that
/// has a node.
#[derive(Drop)]
pub struct Links<M> {
    pub nodes: Slab<Node<M>>,
    pub first: Option<usize>,
    pub last: Option<usize>,
    pub ends: IndexMap<ChannelId, Ends>,
}

/// No node, which takes no memory.
pub fn no_links<M>(alloc: Global) -> Links<M>
    ensures kept { AreLinked result }
    ensures places { places result ≡ [] }
{
    Links {
        nodes: Slab::new(alloc),
        first: None,
        last: None,
        ends: IndexMap::new(alloc),
    }
}

/// Makes room for so many further nodes.
pub fn reserve<M>(links: &mut Links<M>, n: usize) -> Result<(), NoMemory>
    requires { AreLinked links.old }
    ensures kept { AreLinked links.new }
    ensures places { places links.new ≡ places links.old }
    ensures room { OnOk result (n ≤ room_of links.new) }
    ensures grown { room_of links.old ≤ room_of links.new }
    ensures succeeds { n ≤ room_of links.old → IsOk result }
{
    // A slab holds no more than its capacity, which this call says.
    let _capacity = links.nodes.capacity();
    links.nodes.reserve(n)?;
    links.ends.reserve(n)?;
    Ok(())
}

fn set_newer<M>(nodes: &mut Slab<Node<M>>, at: Option<usize>, newer: Option<usize>)
    ensures nodes { (key : ℕ) → get nodes.new key ≡ with_newer at newer (get nodes.old) key }
    ensures count { slab_len nodes.new ≡ slab_len nodes.old }
    ensures capacity { nodes.new.capacity ≡ nodes.old.capacity }
{
    if let Some(key) = at {
        if let Some(node) = nodes.get_mut(key) {
            node.newer = newer;
        }
    }
}

fn set_older<M>(nodes: &mut Slab<Node<M>>, at: Option<usize>, older: Option<usize>)
    ensures nodes { (key : ℕ) → get nodes.new key ≡ with_older at older (get nodes.old) key }
    ensures count { slab_len nodes.new ≡ slab_len nodes.old }
    ensures capacity { nodes.new.capacity ≡ nodes.old.capacity }
{
    if let Some(key) = at {
        if let Some(node) = nodes.get_mut(key) {
            node.older = older;
        }
    }
}

fn set_next<M>(nodes: &mut Slab<Node<M>>, at: Option<usize>, next: Option<usize>)
    ensures nodes { (key : ℕ) → get nodes.new key ≡ with_next at next (get nodes.old) key }
    ensures count { slab_len nodes.new ≡ slab_len nodes.old }
    ensures capacity { nodes.new.capacity ≡ nodes.old.capacity }
{
    if let Some(key) = at {
        if let Some(node) = nodes.get_mut(key) {
            node.next = next;
        }
    }
}

// The ends of a channel, where it has a node.
fn ends_of<M>(links: &Links<M>, ch: ChannelId) -> Option<Ends>
    requires { AreLinked links.now }
    ensures { result ≡ ends_on ch.0 (places links.now) }
{
    links.ends.get(&ch).copied()
}

fn first_or(ends: Option<Ends>, key: usize) -> usize
    ensures { result ≡ first_or ends key }
{
    match ends {
        Some(ends) => ends.first,
        None => key,
    }
}

fn last_of(ends: Option<Ends>) -> Option<usize>
    ensures { result ≡ last_of ends }
{
    Some(ends?.last)
}

fn key_or(first: Option<usize>, key: usize) -> usize
    ensures { result ≡ key_or first key }
{
    match first {
        Some(first) => first,
        None => key,
    }
}

// Sets the ends of a channel where there is room for them.
fn put_ends(ends: &mut IndexMap<ChannelId, Ends>, ch: ChannelId, these: Ends)
    requires { 0 < spare ends.old }
    ensures ends { (other : ℕ) → lookup (λ id. other == id.0) ends.new.entries
        ≡ (if ch.0 == other then Some these else lookup (λ id. other == id.0) ends.old.entries) }
    ensures room { spare ends.old ≤ spare ends.new + 1 }
{
    let _ = ends.insert(ch, these);
}

/// Adds the node of a message, the newest of all, where there is room for it.
pub fn append<M>(links: &mut Links<M>, ch: ChannelId, message: M)
    requires kept { AreLinked links.old }
    requires room { 0 < room_of links.old }
    ensures kept { AreLinked links.new }
    ensures places { places links.new ≡ places links.old ++ (record {
      key = links.old.nodes.vacant_key;
      letter = record { channel = ch; message = message };
    }) ∷ [] }
    ensures room { room_of links.old ≤ room_of links.new + 1 }
{
    let ends = ends_of(links, ch);
    let key = links.nodes.insert_reserved(Node {
        channel: ch,
        message,
        next: None,
        older: links.last,
        newer: None,
    });
    set_newer(&mut links.nodes, links.last, Some(key));
    set_next(&mut links.nodes, last_of(ends), Some(key));
    let first = first_or(ends, key);
    put_ends(&mut links.ends, ch, Ends { first, last: key });
    links.first = Some(key_or(links.first, key));
    links.last = Some(key);
}

// Takes out the node under a key, and links its neighbours to one another.
fn unlink<M>(links: &mut Links<M>, key: usize) -> Node<M>
    requires { ContainsKey links.old.nodes key }
    ensures node { get links.old.nodes key ≡ Some result }
    ensures nodes { (k : ℕ) → get links.new.nodes k ≡ with_older result.newer result.older
        (with_newer result.older result.newer (λ other. if key == other then None else get links.old.nodes other)) k }
    ensures count { slab_len links.new.nodes + 1 ≡ slab_len links.old.nodes }
    ensures capacity { links.new.nodes.capacity ≡ links.old.nodes.capacity }
    ensures first { links.new.first ≡ (if is_none_key result.older then result.newer else links.old.first) }
    ensures last { links.new.last ≡ (if is_none_key result.newer then result.older else links.old.last) }
    ensures ends { links.new.ends ≡ links.old.ends }
{
    let node = links.nodes.remove(key);
    set_newer(&mut links.nodes, node.older, node.newer);
    set_older(&mut links.nodes, node.newer, node.older);
    if node.older.is_none() {
        links.first = node.newer;
    }
    if node.newer.is_none() {
        links.last = node.older;
    }
    node
}

// Drops the first node of a channel that has one from its ends, where this one comes next.
fn shorten(ends: &mut IndexMap<ChannelId, Ends>, ch: ChannelId, next: Option<usize>)
    ensures ends { (other : ℕ) → lookup (λ id. other == id.0) ends.new.entries
        ≡ (if ch.0 == other then ends_after next (lookup (λ id. other == id.0) ends.old.entries) else lookup (λ id. other == id.0) ends.old.entries) }
    ensures room { spare ends.old ≤ spare ends.new }
{
    let Some(next) = next else {
        let _ = ends.swap_remove(&ch);
        return;
    };
    if let Some(left) = ends.get_mut(&ch) {
        left.first = next;
    }
}

/// Takes out the first node of a channel; None exactly where it has none.
pub fn take_first<M>(links: &mut Links<M>, ch: ChannelId) -> Option<M>
    requires { AreLinked links.old }
    ensures kept { AreLinked links.new }
    ensures places { places links.new ≡ places_without ch.0 (places links.old) }
    ensures taken { MatchOption result (queue ch.0 (letters_of (places links.old)) ≡ [])
        (λ message. queue ch.0 (letters_of (places links.old)) ≡ message ∷ queue ch.0 (letters_of (places links.new))) }
    ensures none { IfNone result (links.new ≡ links.old) }
    ensures room { room_of links.old ≤ room_of links.new }
{
    let ends = ends_of(links, ch)?;
    let node = unlink(links, ends.first);
    shorten(&mut links.ends, ch, node.next);
    let Node { message, .. } = node;
    Some(message)
}

/// The message of the first node of a channel; None exactly where it has none.
pub fn first_message<M>(links: &Links<M>, ch: ChannelId) -> Option<&M>
    requires { AreLinked links.now }
    ensures { MatchOption result (queue ch.0 (letters_of (places links.now)) ≡ [])
        (λ first. slice_get (queue ch.0 (letters_of (places links.now))) 0 ≡ Some first.now) }
{
    let ends = ends_of(links, ch)?;
    Some(&links.nodes[ends.first].message)
}

/// The channel of the oldest node; None exactly where there is none.
pub fn first_channel<M>(links: &Links<M>) -> Option<ChannelId>
    requires { AreLinked links.now }
    ensures { result ≡ oldest (letters_of (places links.now)) }
{
    let first = links.first?;
    Some(links.nodes[first].channel)
}
