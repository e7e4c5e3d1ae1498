//! Whatever fails in one copy of each module is masked, even if it tells every listener something else. These are laws over a
//! larger model than the voted machine, the split machine, in which nothing is heard in common: each copy hears the others through
//! voters of its own, and so does the exchange with memory and ports. An adversary, who sees all of the run so far, says which
//! copies fail and what these tell each listener. Each law is the contract of a function that does nothing when it runs; the last
//! three say where masking ends.
#![tactic(auto)]

ghost use Rattle.std.specs.Prelude.{◌≡◌, ◌≤◌, ℕ, ◌*◌, ◌%◌, Bool, true, List};
ghost use Rattle.std.specs.declared.option.Option.TheVariants.{None};
ghost use Rattle.lvdc_map.specs.Address.{Spot};
ghost use Rattle.lvdc_map.specs.Banks.{HasBank};
ghost use Rattle.lvdc_map.specs.Memory.{stored};
ghost use Rattle.lvdc_vote.specs.Copies.{IsFullOrder};
ghost use Rattle.lvdc_vote.specs.Numbers.{latches_of};
ghost use Rattle.lvdc_modules.specs.Request.{IsDestination, spot_of};
ghost use Rattle.lvdc_modules.specs.Rows.{rows};
ghost use Rattle.lvdc_modules.specs.declared.request.Destination.{Destination};
ghost use Rattle.lvdc_plain.specs.Run.{IsOpening};
ghost use Rattle.lvdc_fault.specs.declared.verdict.Verdict.TheVariants.{Admissible};
ghost use Rattle.lvdc_laws_phases.specs.Standing.{Standing};
ghost use Rattle.lvdc_model.specs.Trial.{Trial, plain_at, plain_in};
ghost use Rattle.lvdc_model.specs.Voted.{Voted, count_of};
ghost use Rattle.lvdc_model.specs.Runs.{through};
ghost use Rattle.lvdc_model.specs.Judging.{is_recoverable_after, first_bad, first_bad_below};
ghost use Rattle.lvdc_model.specs.Exchanges.{begin_step};
ghost use Rattle.lvdc_model.specs.Known.{is_known};
ghost use Rattle.lvdc_laws_voted.specs.Ends.{ShowsTimes, stop_end, IsBegun};
ghost use Rattle.lvdc_withstands.specs.Form.{masks};
ghost use Rattle.lvdc_withstands.specs.Kinds.{AllThree};
ghost use Rattle.lvdc_laws_failures.specs.Listeners.{Listener, heard, all_heard};
ghost use Rattle.lvdc_laws_failures.specs.Split.{Run, Adversary};
ghost use Rattle.lvdc_laws_failures.specs.Steps.{words_from, next_copies, copies_after, voted_after};
ghost use Rattle.lvdc_laws_failures.specs.Orders.{none_latched, with_latched, all_latched};
ghost use Rattle.lvdc_laws_failures.specs.Scripts.{scripted};
ghost use Rattle.lvdc_laws_failures.specs.Laws.{OneOfEach, IsMasked, IsPlainRun, IsScripted};
ghost use Rattle.lvdc_laws_failures.specs.Limits.{three_of, liars, deceived, store_votes, two_faced, TellsTheVote};

/// Where at most one copy of each module fails in each step, and the script is admissible, every listener hears the votes of the
/// voted machine, and as long as the run goes on they stand for the plain run; the exchange that is wished for is the plain run's.
pub fn any_failure_is_masked()
    ensures masked { (o : Trial) (a : Adversary) → IsOpening o.opening → (n : ℕ) → first_bad_below o n ≡ Admissible
        → OneOfEach o a n → IsMasked o a n }
    ensures heard { (o : Trial) (a : Adversary) → IsOpening o.opening → (n : ℕ) → first_bad_below o n ≡ Admissible
        → OneOfEach o a n → (voted_after o a n).end ≡ None
        → (listener : Listener) → Standing (n % 3) (all_heard listener (copies_after o a n)) (plain_in o n) }
    ensures exchange { (o : Trial) (a : Adversary) → IsOpening o.opening → (n : ℕ) → first_bad_below o n ≡ Admissible
        → OneOfEach o a n → (voted_after o a n).end ≡ None
        → IsBegun o n (begin_step o (voted_after o a n)) }
{
    lvdc_laws_voted::copies_agree();
    lvdc_laws_voted::guarded_run();
    lvdc_laws_voted::step_begun();
}

/// So after whole times it shows the registers, the words, the log and the devices of the plain run, has ended where the plain
/// run has stopped, and tells the words that can be recovered.
pub fn account_is_plain()
    ensures times { (o : Trial) (a : Adversary) → IsOpening o.opening → (times : ℕ) → first_bad o times ≡ Admissible
        → OneOfEach o a (3 * times) → ShowsTimes o times (voted_after o a (3 * times)) }
    ensures end { (o : Trial) (a : Adversary) → IsOpening o.opening → (times : ℕ) → first_bad o times ≡ Admissible
        → OneOfEach o a (3 * times)
        → (voted_after o a (3 * times)).end ≡ stop_end (plain_at o times).stop (plain_at o times).times }
    ensures steps { (o : Trial) (a : Adversary) → IsOpening o.opening → (times : ℕ) → first_bad o times ≡ Admissible
        → OneOfEach o a (3 * times) → (voted_after o a (3 * times)).steps ≡ 3 * (plain_at o times).times }
    ensures known { (o : Trial) (a : Adversary) → IsOpening o.opening → (n : ℕ) → first_bad_below o n ≡ Admissible
        → OneOfEach o a n → (at : Spot) → HasBank o.opening.banks at
        → is_known o (voted_after o a n) at ≡ is_recoverable_after o (voted_after o a n).steps at }
{
    any_failure_is_masked();
    lvdc_laws_voted::guarded_times();
    lvdc_laws_voted::guarded_ends();
    lvdc_laws_voted::words_known();
}

/// So whatever program runs: where the script masks by form, as it does where one of the two memories dies in some pairs or in all,
/// and in it a bit is turned over at places that no other line names.
pub fn whatever_program_runs()
    ensures form { (o : Trial) (a : Adversary) (count : ℕ) → IsOpening o.opening
        → masks o.script o.opening.banks count ≡ true → OneOfEach o a (3 * count) → IsPlainRun o a count }
    ensures three { (o : Trial) (a : Adversary) (count twin : ℕ) (copy : ℕ → ℕ) → IsOpening o.opening
        → AllThree copy o.opening.banks count twin o.script → OneOfEach o a (3 * count) → IsPlainRun o a count }
{
    any_failure_is_masked();
    account_is_plain();
    lvdc_withstands::form_withstands();
    lvdc_withstands::all_at_once();
}

/// The order in which the copies latch changes nothing: what is told in a step is what was held before it.
pub fn any_order_latches_the_same()
    ensures { (a : Adversary) (run : Run) (memory port : ℕ) (order : List ℕ) → IsFullOrder 21 order
        → all_latched (with_latched a memory port (none_latched run) order) 0 7 ≡ next_copies a run 1 rows memory port }
{}

/// For each script there is an adversary under which the split machine is the voted machine under that script, through every
/// fault. Where the script is admissible, at most one copy of each module fails under it; so the voted machine is masked too.
pub fn scripts_are_adversaries()
    ensures run { (o : Trial) (n : ℕ) → IsScripted o (scripted o) n }
    ensures one { (o : Trial) → IsOpening o.opening → (n : ℕ) → first_bad_below o n ≡ Admissible
        → OneOfEach o (scripted o) n }
    ensures times { (o : Trial) → IsOpening o.opening → (times : ℕ) → first_bad o times ≡ Admissible
        → ShowsTimes o times (through o (3 * times)) }
{
    account_is_plain();
    lvdc_laws_voted::copies_agree();
    lvdc_laws_voted::guarded_run();
    lvdc_fault::none_wrong();
}

/// Two copies of a module that fail in a step are what each listener hears of it: any words, and others for each listener.
pub fn two_failures_say_anything()
    ensures { (number honest : ℕ) (likes : Run → Listener → ℕ → ℕ) (run : Run) (memory port : ℕ)
        → 1 ≤ number → number ≤ 7 → 1 ≤ honest → honest ≤ 3 → (listener : Listener)
        → heard listener (three_of (next_copies (liars number honest likes) run 1 rows memory port) number)
        ≡ words_from (likes run listener) 0 (latches_of number) }
{}

/// Where the voters of the exchange fail, it stores any word anywhere.
pub fn deceived_exchange_stores_anything()
    ensures { (o : Trial) (v : Voted) (t : Destination) (word : ℕ) → IsDestination t
        → (deceived o v (store_votes t word)).intended ≡ stored v.intended (spot_of o.opening.banks t) word }
{}

/// A copy that tells the exchange what the exchange then hears of its module is never counted. So none is where copies fail one of
/// a module at a time and tell the exchange what a sound copy would, whatever they tell each other.
pub fn disagreement_may_stay_unseen()
    ensures copy { (o : Trial) (a : Adversary) (n m c : ℕ) → ((k : ℕ) → k ≤ n → TellsTheVote o a k m c)
        → count_of (voted_after o a n).counts m c ≡ 0 }
    ensures all { (o : Trial) (fails : Run → ℕ → ℕ → Bool) (likes : Run → ℕ → ℕ → ℕ → ℕ → ℕ → ℕ)
        → IsOpening o.opening → (n : ℕ) → first_bad_below o n ≡ Admissible → OneOfEach o (two_faced o fails likes) n
        → (m c : ℕ) → count_of (voted_after o (two_faced o fails likes) n).counts m c ≡ 0 }
{
    lvdc_laws_voted::copies_agree();
    lvdc_laws_voted::guarded_run();
}
