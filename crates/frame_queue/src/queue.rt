//! `FrameQueue`: the queue itself. How its ends wait for each other is in `pace`.
ghost use Rattle.std.specs.Prelude.{◌≡◌, ◌∷◌, ◌++◌, [], IfOk, IfErr, OnOk, OnErr, MatchOption};
ghost use Rattle.frame_queue.specs.Queues.{sent_of, taken_of, IsSenderOf, IsReceiverOf};
ghost use Rattle.frame_queue.specs.Queues.{places_of, paced_places};

use crate::rule::{OrderRule, QueueView, Roles, Sends, Takes, Total};
use crate::{Pace, Receiver, Rest, Row, Sender};
use crossbeam_queue::RuledArrayQueue;
use std::alloc::{AllocError, Global};
use std::sync::Wait;
use std::thread;

/// The most rows that a queue holds.
const PLACES: usize = 32;

pub(crate) type Rows = RuledArrayQueue<Row, QueueView, OrderRule>;

/// A queue of 32 places, for one sender and one receiver.
#[derive(Drop)]
pub struct FrameQueue {
    rows: Rows,
    pace: Pace,
}

impl FrameQueue {
    /// An empty queue, with its sender and its receiver. All memory is allocated here.
    pub fn new(alloc: Global) -> Result<(FrameQueue, Sender, Receiver), AllocError>
        ensures sender { IfOk result (λ made. IsSenderOf made.0 made.1) }
        ensures receiver { IfOk result (λ made. IsReceiverOf made.0 made.2) }
        ensures sent { IfOk result (λ made. sent_of made.1 ≡ []) }
        ensures taken { IfOk result (λ made. taken_of made.2 ≡ []) }
        ensures places { IfOk result (λ made. places_of made.0 ≡ 32) }
        ensures pace { IfOk result (λ made. paced_places made.0 ≡ 32) }
    {
        let (rows, mut pass) = Rows::ruled(alloc, PLACES)?;
        let other = rows.another::<Roles>(&mut pass);
        Ok((
            FrameQueue {
                rows,
                pace: Pace::new(PLACES as u64),
            },
            Sender { pass },
            Receiver { pass: other },
        ))
    }

    /// How the two ends of the queue wait for each other.
    pub fn pace(&self) -> &Pace {
        &self.pace
    }

    /// Sends a row. While the queue is full it tries again, and yields its processor between two
    /// tries.
    pub fn send<R: Wait>(&self, rt: &R, sender: &mut Sender, row: Row)
        requires { IsSenderOf self.now sender.old }
        ensures queue { IsSenderOf self.now sender.new }
        ensures sent { sent_of sender.new ≡ sent_of sender.old ++ row ∷ [] }
    {
        self.pace.begin_send();
        self.push(rt, sender, row);
        self.pace.end_send();
    }

    fn push<R: Wait>(&self, rt: &R, sender: &mut Sender, row: Row)
        requires { IsSenderOf self.now sender.old }
        ensures queue { IsSenderOf self.now sender.new }
        ensures sent { sent_of sender.new ≡ sent_of sender.old ++ row ∷ [] }
    {
        let mut row = row;
        for _ in rt.forever() {
            match self.try_send(sender, row) {
                Ok(()) => return,
                Err(back) => {
                    row = back;
                    thread::yield_now();
                }
            }
        }
        unreachable!()
    }

    /// Sends a row, or returns it if the queue is full.
    fn try_send(&self, sender: &mut Sender, row: Row) -> Result<(), Row>
        requires { IsSenderOf self.now sender.old }
        ensures queue { IsSenderOf self.now sender.new }
        ensures ok { OnOk result (sent_of sender.new ≡ sent_of sender.old ++ row ∷ []) }
        ensures err { OnErr result (sent_of sender.new ≡ sent_of sender.old) }
        ensures back { IfErr result (λ back. back ≡ row) }
    {
        self.rows.try_push_as::<Sends>(&mut sender.pass, row)
    }

    /// Takes the next row. While the queue is empty it tries again, and yields its processor
    /// between two tries.
    pub fn take<R: Wait>(&self, rt: &R, receiver: &mut Receiver) -> Row
        requires { IsReceiverOf self.now receiver.old }
        ensures queue { IsReceiverOf self.now receiver.new }
        ensures taken { taken_of receiver.new ≡ taken_of receiver.old ++ result ∷ [] }
    {
        let row = self.pop(rt, receiver);
        self.pace.end_take();
        row
    }

    fn pop<R: Wait>(&self, rt: &R, receiver: &mut Receiver) -> Row
        requires { IsReceiverOf self.now receiver.old }
        ensures queue { IsReceiverOf self.now receiver.new }
        ensures taken { taken_of receiver.new ≡ taken_of receiver.old ++ result ∷ [] }
    {
        for _ in rt.forever() {
            match self.try_take(receiver) {
                Some(row) => return row,
                None => thread::yield_now(),
            }
        }
        unreachable!()
    }

    /// Takes the next row, if there is one.
    fn try_take(&self, receiver: &mut Receiver) -> Option<Row>
        requires { IsReceiverOf self.now receiver.old }
        ensures queue { IsReceiverOf self.now receiver.new }
        ensures taken { MatchOption result (taken_of receiver.new ≡ taken_of receiver.old)
            (λ row. taken_of receiver.new ≡ taken_of receiver.old ++ row ∷ []) }
    {
        self.rows.try_pop_as::<Takes>(&mut receiver.pass)
    }

    /// Closes the queue. Returns the rows that were sent and not taken.
    pub fn close(self, sender: Sender, receiver: Receiver) -> Rest
        requires sender { IsSenderOf self sender }
        requires receiver { IsReceiverOf self receiver }
        ensures { sent_of sender ≡ taken_of receiver ++ result }
    {
        let Sender { mut pass } = sender;
        let Receiver { pass: other } = receiver;
        let FrameQueue { rows, .. } = self;
        rows.absorb::<Roles>(&mut pass, other);
        rows.learn_as::<Total>(&mut pass);
        Rest { rows, pass }
    }
}
