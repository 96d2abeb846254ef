//! The order of pulls and pushes, seen by a source and a sink that count them together.
ghost use Rattle.std.specs.Prelude.{None};

use crate::tests::ending;
use port_core::{NoMemory, Pull, Push, Sink, Source, Steps};
use relayout_cli::{Status, serve};
use std::alloc::Global;
use std::cell::Cell;
use std::process::Abort;
use std::rc::Rc;
use std::test::Fail;

/// A source of lines `x`, each byte by itself, that fails at a pull.
#[derive(Drop)]
struct Lines {
    pulls: u64,
    fail_at: u64,
    faults: u64,
    /// How many replies stood in the sink at each begin of a line, if each earlier line had one.
    in_time: bool,
    pushes: Rc<Cell<u64>>,
}

impl Source for Lines {
    ghost seen = { λ s. record { left = None; taken = s.pulls; faults = s.faults } };

    fn pull(&mut self, buf: &mut [u8]) -> Pull {
        if self.pulls == self.fail_at {
            self.faults = self.faults.saturating_add(1);
            return Pull::Failed;
        }
        if self.pushes.get() != self.pulls / 2 {
            self.in_time = false;
        }
        buf[0] = if self.pulls % 2 == 0 { b'x' } else { b'\n' };
        self.pulls = self.pulls.saturating_add(1);
        Pull::Bytes(1)
    }
}

/// A sink that counts pushes, and fails at one.
#[derive(Drop)]
struct Replies {
    pushes: Rc<Cell<u64>>,
    fail_at: u64,
    faults: u64,
}

impl Sink for Replies {
    ghost seen = { λ s. record { held = None; faults = s.faults } };

    fn push(&mut self, _bytes: &[u8]) -> Push {
        let pushes = self.pushes.get();
        self.pushes.set(pushes.saturating_add(1));
        if pushes >= self.fail_at {
            self.faults = self.faults.saturating_add(1);
            return Push::Failed;
        }
        Push::Done
    }
}

/// Serves lines until a fault, and compares the status and the numbers of pulls, pushes and faults.
fn expect(
    rt: &impl Abort,
    alloc: Global,
    pull: u64,
    push: u64,
    status: Status,
    counts: (u64, u64),
    faults: (u64, u64),
) -> Result<(), NoMemory> {
    let pushes = Rc::new(alloc, Cell::new(0))?;
    let mut source = Lines {
        pulls: 0,
        fail_at: pull,
        faults: 0,
        in_time: true,
        pushes: pushes.clone()?,
    };
    let mut sink = Replies {
        pushes: pushes.clone()?,
        fail_at: push,
        faults: 0,
    };
    let mut steps = Steps::new(());
    let given = ending(serve(alloc, 1, &mut source, &mut sink, &mut steps))?;
    assert_eq!(rt; given, status);
    assert!(rt; source.in_time);
    assert_eq!(rt; (source.pulls, pushes.get()), counts);
    assert_eq!(rt; (source.faults, sink.faults), faults);
    Ok(())
}

#[test]
fn replies_come_before_the_next_line_and_nothing_after_a_fault(
    rt: HostRuntime,
) -> Result<(), Fail> {
    expect(&rt, rt.alloc(), 7, 100, Status::ReadFault, (7, 3), (1, 0))?;
    expect(&rt, rt.alloc(), 6, 100, Status::ReadFault, (6, 3), (1, 0))?;
    expect(&rt, rt.alloc(), 100, 2, Status::WriteFault, (6, 3), (0, 1))?;
    Ok(())
}
