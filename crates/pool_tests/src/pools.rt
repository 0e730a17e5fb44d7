//! What no clause says about a pool: names from git, that calls succeed, and which slot is used
//! again.

mod plain_pool;

ghost use Rattle.std.specs.Prelude.{◌≡◌, ℕ, ◌+◌, ◌<◌, ◌≤◌, IfOk, OnErr};
ghost use Rattle.git_model.specs.Content.{content_from};
ghost use Rattle.git_model.specs.declared.kind.Kind.TheVariants as kind;
ghost use Rattle.content_pool.specs.Pool.{HasHoldsLeft, IsVacant, Puts, holds};

use content_pool::{Bytes, Pool, Slot};
use git_model::Kind;
use git_objects::{Memory, Name, Naming, Sha1Naming, TailNaming};
use plain_pool::PlainPool;
use std::alloc::Global;
use std::test::Fail;

// The number of contents in a pool, and the sum of their sizes.
type Sizes = (u64, u64);

// A test on a pool that holds nothing.
#[derive(Clone, Copy)]
enum Turn {
    Names,
    Keeps,
    UsesAgain,
    TakesMany,
}

// `git hash-object` gave the digits.
const HELLO: &[u8; 40] = b"ce013625030ba8dba906f756967f9e9ca394464a";

// Puts `hello` and a line feed as a blob, and answers the digits of its name, whether `get` gives
// it back, and what is then stored.
fn of_hello(pool: &mut Pool<Sha1Naming>) -> Result<([u8; 40], bool, Sizes), Memory>
    requires { IsVacant pool.old }
{
    let (slot, id) = pool.put(Kind::Blob, b"hello\n")?;
    let (kind, bytes) = pool.get(slot);
    let is_same = kind == Kind::Blob && bytes == b"hello\n".as_slice();
    Ok((id.to_hex(), is_same, pool.stored()))
}

// Holds one content five times, each time by another call, and answers its one slot.
fn held_in_five_ways(alloc: Global, pool: &mut Pool<Sha1Naming>) -> Result<Slot, Fail>
    requires { IsVacant pool.old }
    ensures { IfOk result (λ slot. holds pool.new slot ≡ 5) }
{
    let (slot, id) = pool.put(Kind::Blob, b"a")?;
    let (again, _) = pool.put(Kind::Blob, b"a")?;
    let owned = Vec::from_slice(alloc, b"a")?;
    let taken = pool.put_owned(id, Kind::Blob, owned)?;
    let lent = pool.put_bytes(id, Kind::Blob, Bytes::lent(b"a"))?;
    if again != slot || taken != slot || lent != slot {
        return Err(Fail::from("two slots for one content"));
    }
    pool.hold(slot);
    Ok(slot)
}

// Whether a content that is held five times stays until its last release.
fn keeps_a_content_until_its_last_release(
    alloc: Global,
    pool: &mut Pool<Sha1Naming>,
) -> Result<bool, Fail>
    requires { IsVacant pool.old }
{
    let slot = held_in_five_ways(alloc, pool)?;
    for _ in 0..4u32 {
        pool.release(slot);
        if pool.stored() != (1, 1) {
            return Ok(false);
        }
    }
    pool.release(slot);
    Ok(pool.stored() == (0, 0))
}

// Whether the slot of a released content is used for the next one, and has that content.
fn uses_a_slot_again_after_its_last_release(pool: &mut Pool<Sha1Naming>) -> Result<bool, Memory>
    requires { IsVacant pool.old }
{
    let (first, _) = pool.put(Kind::Blob, b"a")?;
    pool.release(first);
    let (second, _) = pool.put(Kind::Blob, b"b")?;
    let (_, bytes) = pool.get(second);
    Ok(second == first && bytes == b"b".as_slice())
}

// Whether two contents of one name have two slots, and each is dropped alone.
fn tells_two_contents_of_one_name_apart(pool: &mut Pool<TailNaming>) -> Result<bool, Memory>
    requires { IsVacant pool.old }
{
    let (ab, first) = pool.put(Kind::Blob, b"ab")?;
    let (ba, second) = pool.put(Kind::Blob, b"ba")?;
    if first != second || ab == ba || pool.stored() != (2, 4) {
        return Ok(false);
    }
    pool.release(ab);
    let (_, bytes) = pool.get(ba);
    Ok(bytes == b"ba".as_slice() && pool.stored() == (1, 2))
}

// Whether the pool is as it was after so many contents, each in the slot of the first.
fn takes_ten_thousand_contents(pool: &mut Pool<Sha1Naming>) -> Result<bool, Memory>
    requires { IsVacant pool.old }
{
    let (first, _) = pool.put(Kind::Blob, b"first")?;
    pool.release(first);
    for number in 0..10_000u32 {
        if !goes_into(pool, first, &number.to_be_bytes())? {
            return Ok(false);
        }
    }
    Ok(pool.stored() == (0, 0))
}

// Whether these four bytes are put into this slot, alone, and dropped again.
fn goes_into(pool: &mut Pool<Sha1Naming>, slot: Slot, bytes: &[u8]) -> Result<bool, Memory>
    requires { IsVacant pool.old }
    ensures { IsVacant pool.new }
{
    let (taken, _) = pool.put(Kind::Blob, bytes)?;
    let is_alone = taken == slot && pool.stored() == (1, 4);
    pool.release(taken);
    Ok(is_alone)
}

// Whether a new pool keeps each content as it should.
fn goes_in_turn(alloc: Global, pool: &mut Pool<Sha1Naming>, turn: Turn) -> Result<bool, Fail>
    requires { IsVacant pool.old }
{
    match turn {
        Turn::Names => Ok(of_hello(pool)? == (*HELLO, true, (1, 6))),
        Turn::Keeps => keeps_a_content_until_its_last_release(alloc, pool),
        Turn::UsesAgain => Ok(uses_a_slot_again_after_its_last_release(pool)?),
        Turn::TakesMany => Ok(takes_ten_thousand_contents(pool)?),
    }
}

fn new_pool_goes(alloc: Global, turn: Turn) -> Result<bool, Fail> {
    let mut pool = Pool::new(alloc, Sha1Naming);
    let goes = goes_in_turn(alloc, &mut pool, turn);
    drop(pool);
    goes
}

// Whether a new pool, in which two contents have one name, tells them apart, or else stays as it
// is after a refusal.
fn new_pool_goes_by_tail(alloc: Global, tells_apart: bool) -> Result<bool, Memory> {
    let mut pool = Pool::new(alloc, TailNaming);
    let goes = goes_by_tail(&mut pool, tells_apart);
    drop(pool);
    goes
}

fn goes_by_tail(pool: &mut Pool<TailNaming>, tells_apart: bool) -> Result<bool, Memory>
    requires { IsVacant pool.old }
{
    if tells_apart {
        tells_two_contents_of_one_name_apart(pool)
    } else {
        put_both(pool)
    }
}

#[test]
fn stores_each_content_once(rt: HostRuntime) -> Result<(), Fail> {
    assert!(rt; new_pool_goes(rt.alloc(), Turn::Names)?);
    assert!(rt; new_pool_goes(rt.alloc(), Turn::Keeps)?);
    assert!(rt; new_pool_goes(rt.alloc(), Turn::UsesAgain)?);
    assert!(rt; new_pool_goes(rt.alloc(), Turn::TakesMany)?);
    assert!(rt; new_pool_goes_by_tail(rt.alloc(), true)?);
    Ok(())
}

#[test]
fn answers_as_the_plain_pool_does(rt: HostRuntime) -> Result<(), Fail> {
    assert!(rt; new_pools_answer_alike(rt.alloc())?);
    Ok(())
}

// Contents of two names, some of them twice, and whether each is lent.
const PUT: &[(&[u8], bool)] = &[
    (b"ab", true),
    (b"ba", false),
    (b"cd", true),
    (b"ab", false),
    (b"dc", false),
    (b"ba", true),
];

// Whether both answer the same when these contents are put, and then hold four of two bytes.
fn answer_alike(
    pool: &mut Pool<TailNaming>,
    plain: &mut PlainPool<TailNaming>,
) -> Result<bool, Memory>
    requires vacant { IsVacant pool.old }
    requires plain_vacant { IsVacant plain.old }
{
    for (bytes, is_lent) in PUT {
        if !put_alike(pool, plain, bytes, *is_lent)? {
            return Ok(false);
        }
    }
    Ok(pool.stored() == (4, 8))
}

// Whether both answer the same when these bytes are put, which adds one hold at most.
fn put_alike(
    pool: &mut Pool<TailNaming>,
    plain: &mut PlainPool<TailNaming>,
    bytes: &'static [u8],
    is_lent: bool,
) -> Result<bool, Memory>
    requires room { HasHoldsLeft pool.old }
    requires plain_room { HasHoldsLeft plain.old }
    ensures one { (s : ℕ) → holds pool.new s ≤ holds pool.old s + 1 }
    ensures plain_one { (s : ℕ) → holds plain.new s ≤ holds plain.old s + 1 }
{
    let (slot, id) = put_as(pool, bytes, is_lent)?;
    let (position, plain_id) = plain.put(Kind::Blob, bytes)?;
    let is_same = id == plain_id && pool.stored() == plain.stored();
    let is_lent_again = pool.lend_again(slot, bytes) && !pool.lend_again(slot, b"no");
    Ok(is_same && is_lent_again && pool.get(slot) == plain.get(position))
}

// Puts these bytes as a blob, lent or copied.
fn put_as(
    pool: &mut Pool<TailNaming>,
    bytes: &'static [u8],
    is_lent: bool,
) -> Result<(Slot, Name), Memory>
    requires { HasHoldsLeft pool.old }
    ensures puts { IfOk result
        (λ r. Puts pool.old pool.new r.0 (content_from kind.Blob bytes.now)) }
    ensures err { OnErr result (pool.new ≡ pool.old) }
{
    if !is_lent {
        return pool.put(Kind::Blob, bytes);
    }
    let id = pool.name_of(Kind::Blob, bytes)?;
    let slot = pool.put_bytes(id, Kind::Blob, Bytes::lent(bytes))?;
    Ok((slot, id))
}

fn new_pools_answer_alike(alloc: Global) -> Result<bool, Memory> {
    let mut pool = Pool::new(alloc, TailNaming);
    let mut plain = PlainPool::new(alloc, TailNaming);
    let alike = answer_alike(&mut pool, &mut plain);
    drop(pool);
    drop(plain);
    alike
}

// Whether both contents are put, each tried again if an allocation failed and changed nothing.
fn put_both(pool: &mut Pool<TailNaming>) -> Result<bool, Memory>
    requires { IsVacant pool.old }
{
    let first = stays_and_takes(pool, b"ab")?;
    let second = stays_and_takes(pool, b"ba")?;
    Ok(first && second && pool.stored() == (2, 4))
}

// Whether these bytes are put, tried again if an allocation failed and changed nothing.
fn stays_and_takes(pool: &mut Pool<TailNaming>, bytes: &[u8]) -> Result<bool, Memory>
    requires { HasHoldsLeft pool.old }
    ensures { (s : ℕ) → holds pool.new s ≤ holds pool.old s + 1 }
{
    let before = pool.stored();
    if pool.put(Kind::Blob, bytes).is_ok() {
        return Ok(true);
    }
    let is_unchanged = pool.stored() == before;
    pool.put(Kind::Blob, bytes)?;
    Ok(is_unchanged)
}

// Run with the first, second, .. allocation refused: the pool is then as it was, and a second try
// goes through.
#[test]
fn is_unchanged_after_a_refused_growth(rt: HostRuntime) -> Result<(), Fail> {
    assert!(rt; new_pool_goes_by_tail(rt.alloc(), false)?);
    Ok(())
}
