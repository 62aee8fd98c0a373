//! Seats of a dump board from which workers run cases, and take what was hit.
ghost use Rattle.std.specs.Prelude.{◌≡◌, ◌+◌, ◌<◌, IfOk};
ghost use Rattle.jc_dump.specs.Since.{HitsSince};
ghost use Rattle.jc_dump.specs.HasRun.{GainsHits, TakesDue};

use crate::{DumpSink, Origin};
use jc_board::KnownHits;
use jc_bytes::Memory;
use jc_dump_board::{DumpBoard, DumpSeat};
use jc_programs::HitSet;
use jc_workers::{CaseRunner, CaseSeat, Gate};
use std::alloc::Global;
use std::marker::Brand;

/// A board from which a dump is taken behind each case whose number, from 1, is a multiple of `every`.
#[derive(Drop)]
pub struct Dumping {
    pub board: DumpBoard,
    /// How many probes each class has.
    pub counts: Vec<u32>,
    pub every: u32,
}

/// A seat of the board, and the dumps that were taken from it, by their numbers from 0.
#[derive(Drop)]
pub struct DumpingSeat {
    pub seat: DumpSeat,
    pub dumps: Vec<(usize, HitSet)>,
}

// Runs a case whose probes are hit from the seat. Nothing is remembered of the cases before, since what they hit may have been
// taken: a probe that is hit again is set again.
#[tactic(auto, using(crate::proofs::KnownLaws::known_hits))]
fn run_from<O: Origin, C: CaseRunner, G: Gate>(
    alloc: Global,
    seat: DumpSeat,
    board: &DumpBoard,
    runner: &C,
    world: &mut C::World,
    gate: &G,
    case: usize,
    mut known: KnownHits,
) -> Result<(C::End, DumpSeat, KnownHits), Memory>
    requires known { known.counts ≡ board.now.counts }
    requires origin { (seat ≡ O.was) × (board.now.table ≡ O.was.table) }
    requires counts { board.now.counts ≡ C.counts runner.now }
    requires case { C.runnable runner.now × (case < C.cases runner.now) }
    requires gate { G.passed gate.now (case + 1) }
    requires world { C.fits runner.now world.old }
    ensures world { C.fits runner.now world.new }
    ensures end { IfOk result (λ r. r.0 ≡ C.end_of runner.now case) }
    ensures since { IfOk result (λ r. HitsSince O.was r.1) }
    ensures gained { IfOk result (λ r. GainsHits (C.hits runner.now case) seat.pending r.1.pending) }
    ensures known { IfOk result (λ r. r.2.counts ≡ board.now.counts) }
{
    known.forget();
    let mut sink: DumpSink<O> = DumpSink::new(seat, board, known);
    let end = runner.run(alloc, world, gate, case, &mut sink)?;
    let (seat, known) = sink.into_parts();
    Ok((end, seat, known))
}

// Takes a dump where one is due behind the case.
fn take_due(
    alloc: Global,
    dumping: &Dumping,
    seat: &mut DumpSeat,
    dumps: &mut Vec<(usize, HitSet)>,
    case: usize,
) -> Result<(), Memory>
    requires board { (seat.old.table ≡ dumping.now.board.table) × (dumping.now.counts.items ≡ dumping.now.board.counts) }
    requires every { 0 < dumping.now.every }
    ensures board { IfOk result (λ _. (seat.new.table ≡ seat.old.table) × (seat.new.part ≡ seat.old.part) × (seat.new.alone ≡ seat.old.alone)) }
    ensures taken { IfOk result (λ _. TakesDue dumping.now.every dumping.now.board.counts case seat.old seat.new dumps.old.items dumps.new.items) }
{
    let every = dumping.every as usize;
    if case % every + 1 < every {
        return Ok(());
    }
    let mut dump = HitSet::new(alloc, &dumping.counts)?;
    seat.take(&dumping.board, &mut dump);
    dumps.push((case / every, dump))?;
    Ok(())
}

impl<C: CaseRunner> CaseSeat<C> for DumpingSeat
where
    C::End: Drop,
{
    ghost use Rattle.std.specs.Prelude.{◌≡◌, ◌<◌, true};
    ghost use Rattle.jc_dump.specs.HasRun.{HasRun};

    type Board = Dumping;

    ghost counts = { λ dumping. dumping.board.counts };

    ghost at = { λ seat dumping. (seat.seat.table ≡ dumping.board.table) × (dumping.counts.items ≡ dumping.board.counts) × (0 < dumping.every) };

    ghost part = { λ seat. seat.seat.part };

    ghost alone = { λ seat. seat.seat.alone ≡ true };

    ghost ran = { λ seat dumping runner cases. HasRun dumping.every dumping.board.counts (C.hits runner) cases seat.seat seat.dumps.items };

    ghost keeps = { λ seat dumping known. known.counts ≡ dumping.board.counts };

    fn begin(&self, alloc: Global, board: &Dumping) -> Result<KnownHits, Memory> {
        KnownHits::new(alloc, &board.counts)
    }

    fn run_case<G: Gate>(
        self,
        alloc: Global,
        board: &Dumping,
        runner: &C,
        world: &mut C::World,
        gate: &G,
        case: usize,
        known: KnownHits,
    ) -> Result<(C::End, DumpingSeat, KnownHits), Memory> {
        let DumpingSeat { seat, mut dumps } = self;
        let (end, mut seat, known) = run_from::<Brand, C, G>(
            alloc,
            seat,
            &board.board,
            runner,
            world,
            gate,
            case,
            known,
        )?;
        take_due(alloc, board, &mut seat, &mut dumps, case)?;
        Ok((end, DumpingSeat { seat, dumps }, known))
    }

    fn split(&mut self, alloc: Global, board: &Dumping, amount: u32) -> DumpingSeat {
        let seat = self.seat.split(&board.board, amount);
        let dumps = Vec::new(alloc);
        DumpingSeat { seat, dumps }
    }

    fn join(&mut self, board: &Dumping, other: DumpingSeat) -> Result<(), Memory> {
        let DumpingSeat { seat, mut dumps } = other;
        self.seat.join(&board.board, seat);
        self.dumps.append(&mut dumps)?;
        Ok(())
    }
}
