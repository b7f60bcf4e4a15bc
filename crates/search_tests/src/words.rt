//! The word that workers share, by one thread and by two.

ghost use Rattle.std.specs.Prelude.{◌≡◌, ◌+◌};

use best_word::{BestWord, Seat};
use std::test::Fail;
use std::thread::join;

fn crosses_threads<T: Send>() {}

fn is_shared<T: Send + Sync>() {}

#[test]
fn a_word_and_its_seats_cross_threads() {
    is_shared::<BestWord>();
    crosses_threads::<Seat>();
}

#[test]
fn two_seats_agree_on_the_least_cost(rt: HostRuntime) -> Result<(), Fail> {
    let Ok((word, mut first)) = BestWord::new(rt.alloc(), 2) else {
        panic!(rt; "there was no memory")
    };
    let mut other = word.split(&mut first, 1);
    assert!(rt; word.see(&mut first) == u64::MAX);
    assert!(rt; word.publish(&mut first, 9) == u64::MAX);
    assert!(rt; word.publish(&mut first, 12) == 9);
    assert!(rt; word.see(&mut other) == 9);
    word.join(&mut first, other);
    assert!(rt; word.close(first) == 9);
    Ok(())
}

// The seat, and the best cost before.
fn publish(word: &BestWord, mut seat: Seat, cost: u64) -> (Seat, u64)
    requires { seat.word ≡ word.now.word }
    ensures { (result.0.word ≡ seat.word) × (result.0.parts ≡ seat.parts) }
{
    let before = word.publish(&mut seat, cost);
    (seat, before)
}

#[test]
fn two_threads_publish(rt: HostRuntime) -> Result<(), Fail> {
    let Ok((word, mut first)) = BestWord::new(rt.alloc(), 3) else {
        panic!(rt; "there was no memory")
    };
    let other = word.split(&mut first, 2);
    let shared = &word;
    let ((mut first, a), (other, b)) = join(
        &rt,
        || publish(shared, first, 9),
        || publish(shared, other, 7),
    );
    assert!(rt; (a, b) == (u64::MAX, 9) || (a, b) == (7, u64::MAX));
    word.join(&mut first, other);
    assert!(rt; word.see(&mut first) == 7);
    assert!(rt; word.close(first) == 7);
    Ok(())
}
