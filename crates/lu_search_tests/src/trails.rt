//! Histories that are remembered, also where there are more of them than there is room for.

ghost use Rattle.std.specs.Prelude.{◌≡◌, ◌<◌, [], ◌∷◌, ◌++◌, length, IfOk};
ghost use Rattle.lu_history.specs.Histories.{calls, outcomes};
ghost use Rattle.lu_history.specs.declared.serial.SerialOutcome.TheVariants.{Ret as Returned};
ghost use Rattle.lu_search_tests.specs.Operations.{first_operation};

use lu_history::{SerialOp, SerialOutcome};
use lu_judge::Trail;
use lu_machine::{Event, Outcome};
use lu_trie::{SerialTree, Trie};
use lu_witness::{Cache, Verdict};
use std::alloc::AllocError;
use std::process::Abort;
use std::test::Fail;

/// Adds a call of the thread and its return.
fn push_operation<T: SerialTree>(trail: &mut Trail<'_, T>, t: u8, number: u32)
    requires thread { t < 8 }
    requires called { calls t trail.old.history ≡ 0 }
    requires returned { length (outcomes t trail.old.history) ≡ 0 }
    ensures tree { trail.new.tree ≡ trail.old.tree }
    ensures history { trail.new.history ≡ trail.old.history ++ first_operation t number }
{
    trail.push(Event::Call { t, k: 0 });
    trail.push(Event::Return {
        t,
        k: 0,
        outcome: Outcome::Ret(number),
    });
}

/// Threads 0, 1 and 2 return the numbers, one after the other. The trail is empty before and after.
fn judge<'t, T: SerialTree>(
    trail: &mut Trail<'t, T>,
    cache: &mut Cache<'t, T>,
    numbers: (u32, u32, u32),
) -> Result<Verdict, AllocError>
    requires empty { trail.old.history ≡ [] }
    requires tree { cache.old.tree ≡ trail.old.tree }
    ensures empty { IfOk result (λ _. trail.new.history ≡ []) }
    ensures tree { IfOk result (λ _. cache.new.tree ≡ trail.new.tree) }
{
    push_operation(trail, 0, numbers.0);
    push_operation(trail, 1, numbers.1);
    push_operation(trail, 2, numbers.2);
    let verdict = trail.judge(cache)?;
    for _event in 0..6u8 {
        trail.pop();
    }
    Ok(verdict)
}

fn ret(thread: u8, number: u32) -> SerialOp
    ensures { result.outcome ≡ Returned number }
{
    SerialOp {
        thread,
        outcome: SerialOutcome::Ret(number),
    }
}

/// Triples of numbers, and how they are judged.
const TRIPLES: &[((u32, u32, u32), Verdict)] = &[
    ((7, 9, 5), Verdict::Good),
    ((8, 9, 5), Verdict::NoWitness),
    ((7, 9, 5), Verdict::Good),
];

/// Each of these triples of numbers is judged so.
fn assert_judged<'t, R: Abort, T: SerialTree>(
    rt: &R,
    trail: &mut Trail<'t, T>,
    cache: &mut Cache<'t, T>,
    triples: &[((u32, u32, u32), Verdict)],
) -> Result<(), AllocError>
    requires empty { trail.old.history ≡ [] }
    requires tree { cache.old.tree ≡ trail.old.tree }
    ensures empty { IfOk result (λ _. trail.new.history ≡ []) }
    ensures tree { IfOk result (λ _. cache.new.tree ≡ trail.new.tree) }
{
    for triple in triples {
        assert!(rt; judge(trail, cache, triple.0)? == triple.1);
    }
    Ok(())
}

/// The last of 270,000 triples of numbers, none twice, that is judged good.
fn last_good<'t, T: SerialTree>(
    trail: &mut Trail<'t, T>,
    cache: &mut Cache<'t, T>,
) -> Result<u32, AllocError>
    requires empty { trail.old.history ≡ [] }
    requires tree { cache.old.tree ≡ trail.old.tree }
    ensures empty { IfOk result (λ _. trail.new.history ≡ []) }
    ensures tree { IfOk result (λ _. cache.new.tree ≡ trail.new.tree) }
{
    let mut good = 0u32;
    for number in 0..270_000 {
        let numbers = (number / 4096, number / 64 % 64, number % 64);
        if judge(trail, cache, numbers)? == Verdict::Good {
            good = number;
        }
    }
    Ok(good)
}

/// Verdicts are the same again; and of many histories one is good, also when it is judged again.
fn assert_verdicts<'t, R: Abort, T: SerialTree>(
    rt: &R,
    trail: &mut Trail<'t, T>,
    cache: &mut Cache<'t, T>,
) -> Result<(), AllocError>
    requires empty { trail.old.history ≡ [] }
    requires tree { cache.old.tree ≡ trail.old.tree }
{
    assert_judged(rt, trail, cache, TRIPLES)?;
    assert!(rt; last_good(trail, cache)? == (7 * 4096 + 9 * 64 + 5));
    assert_judged(rt, trail, cache, TRIPLES)
}

/// The same with a new trail.
fn assert_trail<'t, R: AllocGlobal + Abort, T: SerialTree>(
    rt: &R,
    tree: &'t T,
    cache: &mut Cache<'t, T>,
) -> Result<(), AllocError>
    requires { cache.old.tree ≡ tree.now }
{
    let mut trail = Trail::new(rt.alloc(), tree)?;
    assert_verdicts(rt, &mut trail, cache)
}

/// The same with a new cache.
fn assert_cached<R: AllocGlobal + Abort, T: SerialTree>(
    rt: &R,
    tree: &T,
) -> Result<(), AllocError> {
    let mut cache = Cache::new(rt.alloc(), tree, 16)?;
    assert_trail(rt, tree, &mut cache)
}

/// There are more histories than there is room for.
#[test]
fn verdicts_are_the_same_again(rt: HostRuntime) -> Result<(), Fail> {
    let mut set = Trie::new(rt.alloc());
    set.insert(&[ret(0, 7), ret(1, 9), ret(2, 5)])?;
    assert_cached(&rt, &&set)?;
    Ok(())
}
