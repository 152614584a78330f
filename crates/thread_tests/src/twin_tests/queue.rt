//! A queue between two threads.
ghost use Rattle.frame_queue.specs.Queues.{IsSenderOf, IsReceiverOf};

use det_values::Frame;
use frame_queue::{FrameQueue, Receiver, Row, Sender};
use std::sync::Wait;
use std::test::Fail;
use std::thread::{Threads, join};

fn row(number: u32) -> Row {
    Row {
        number,
        frame: Frame::Discover,
    }
}

/// Sends `count` rows, from number 0 on.
fn send_rows<R: Wait>(rt: &R, queue: &FrameQueue, mut sender: Sender, count: u32) -> Sender
    requires { IsSenderOf queue.now sender }
    ensures { IsSenderOf queue.now result }
{
    for number in 0..count {
        queue.send(rt, &mut sender, row(number));
    }
    sender
}

/// Takes `count` rows, and returns whether their numbers go from 0 on.
fn take_rows<R: Wait>(
    rt: &R,
    queue: &FrameQueue,
    mut receiver: Receiver,
    count: u32,
) -> (Receiver, bool)
    requires { IsReceiverOf queue.now receiver }
    ensures { IsReceiverOf queue.now result.0 }
{
    let mut are_in_order = true;
    for number in 0..count {
        are_in_order &= queue.take(rt, &mut receiver) == row(number);
    }
    (receiver, are_in_order)
}

/// Sends `count` rows on one thread and takes them on another.
fn send_and_take<R: Threads + Wait + Sync>(
    rt: &R,
    queue: &FrameQueue,
    sender: Sender,
    receiver: Receiver,
    count: u32,
) -> (Sender, (Receiver, bool))
    requires sender { IsSenderOf queue.now sender }
    requires receiver { IsReceiverOf queue.now receiver }
    ensures sender { IsSenderOf queue.now result.0 }
    ensures receiver { IsReceiverOf queue.now result.1.0 }
{
    join(
        rt,
        move ||
            requires { IsSenderOf queue.now sender }
            ensures { IsSenderOf queue.entry.now result }
        { send_rows(rt, queue, sender, count) },
        move ||
            requires { IsReceiverOf queue.now receiver }
            ensures { IsReceiverOf queue.entry.now result.0 }
        { take_rows(rt, queue, receiver, count) },
    )
}

/// A queue has 32 places, so neither end can finish without the other.
#[test]
fn a_hundred_rows_come_in_order(rt: HostRuntime) -> Result<(), Fail> {
    let (queue, sender, receiver) = FrameQueue::new(rt.alloc())?;
    let (mut sender, (receiver, are_in_order)) = send_and_take(&rt, &queue, sender, receiver, 100);
    queue.send(&rt, &mut sender, row(100));
    let mut rest = queue.close(sender, receiver);
    assert!(rt; are_in_order && rest.next(&rt) == Some(row(100)));
    Ok(())
}
