//! Laws about the promise of `top`. Each is a function that computes nothing, and its contract is
//! the law.
ghost use Rattle.std.specs.Prelude.{◌≡◌, ℕ, Bool, List, Option};
ghost use Rattle.det_io.specs.Shelf.{ShelfState};
ghost use Rattle.det_io.specs.Traffic.{sink_run};
ghost use Rattle.probes.specs.Reports.{AudienceState};
ghost use Rattle.cli_answers.specs.declared.status.Status.{Status};
ghost use Rattle.cli_words.specs.Command.{CommandValue};
ghost use Rattle.cmd_run.specs.record_command.Outcomes.{record_outcome};
ghost use Rattle.cmd_run.specs.chain_command.Chain.{chain_outcome};
ghost use Rattle.det_cli.specs.Laws.{Concludes, IsSameOn, DifferInWorkers};
ghost use Rattle.det_cli.specs.Promise.{IsPromised};

use det_io::Sink;

/// What a user may conclude from the exit status of a run that keeps the promise of `top`.
pub fn exit_status_law<K: Sink, E: Sink>()
    ensures { (words : List (List ℕ)) (first last : ShelfState) (out out_after : K)
        (err err_after : E) (seeing stayed : AudienceState) (status : Status)
        → IsPromised words first last (sink_run K.took K.faults out out_after)
        (sink_run E.took E.faults err err_after) seeing stayed status
        → Concludes words first last (sink_run K.took K.faults out out_after) seeing status }
{}

/// The number of workers changes no outcome.
///
/// Two commands that differ only in `--workers` open the same names and have the same outcome.
/// `record` has the same outcome for two manifests that differ only in their number of workers, and
/// so has `chain` for two pairs of them.
pub fn worker_law()
    ensures command { (number : Option ℕ) (c : CommandValue) (holds : List ℕ → List ℕ)
        (audience : AudienceState) → IsSameOn number c holds audience }
    ensures manifest { (strict : Bool) (one other stimulus : List ℕ) (seed : Option ℕ)
        → DifferInWorkers strict one other
        → record_outcome strict other stimulus seed ≡ record_outcome strict one stimulus seed }
    ensures pair { (strict : Bool) (first other second another stimulus : List ℕ) (seed : Option ℕ)
        → DifferInWorkers strict first other → DifferInWorkers strict second another
        → chain_outcome strict other another stimulus seed
        ≡ chain_outcome strict first second stimulus seed }
{}
