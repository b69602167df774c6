//! Facts about runs whose messages are bounded, as contracts of functions that do nothing.

ghost use Rattle.std.specs.Prelude.{◌≡◌, [], codes};
ghost use Rattle.roff_num.specs.declared.limit.Limit.TheVariants.{Messages};
ghost use Rattle.run_model.specs.declared.status.Status.TheVariants.{Aborted, Done};
ghost use Rattle.run_model.specs.declared.status.Status.TheVariants.{Limit as Limited};
ghost use Rattle.law_runs.specs.BoundedMessages.{MessagesAreWithin, MessagesOnlyStop};
ghost use Rattle.law_runs.specs.MessageBounds.{EachRunTellsFew, EachStepTellsLittle};
ghost use Rattle.law_runs.specs.MessageBounds.{GreatLimitStopsNothing, MessagesAreFew};
ghost use Rattle.law_runs.specs.Rows.{formatted_telling, gives};

/// No run tells more bytes of messages than its limit says, but for the message that says why it
/// ended. The limit changes nothing else: until a step would pass it, the run goes as it does
/// without, and then it stops before that step.
pub fn message_bounds()
    ensures within { MessagesAreWithin }
    ensures only_stop { MessagesOnlyStop }
{}

/// No step tells more than a line of one short message, at most 36 bytes and the digits of its
/// number; or the text of a message that was read, and a newline; or a note of the source. So
/// without a limit on messages too a run tells a bounded number of bytes for each byte that it is
/// charged, beside the notes that it takes; and a limit that is no smaller stops no run.
pub fn told_by_steps()
    ensures little { EachStepTellsLittle }
    ensures few { MessagesAreFew }
    ensures whole { EachRunTellsFew }
    ensures great { GreatLimitStopsNothing }
{}

/// What the definitions give where a limit on messages holds: just what two messages take, one
/// byte less, and nothing. The message that ends a run isn't counted. The longest message that an
/// item means takes 36 bytes and a digit.
#[tactic(auto, unfolding(roff_num::proofs::OnLiterals::numbers_on_literals))]
pub fn bounded_message_rows()
    ensures both { formatted_telling 52 (codes ".pl 1\n.nf\nab\n.ll x\ncd\n.ll y\nef\n")
        ≡ gives (codes "ab\ncd\nef\n")
        (codes "nroff: line 4: bad number\nnroff: line 6: bad number\n") Done }
    ensures one { formatted_telling 51 (codes ".pl 1\n.nf\nab\n.ll x\ncd\n.ll y\nef\n")
        ≡ gives (codes "ab\ncd\n")
        (codes "nroff: line 4: bad number\nnroff: line 6: limit messages (51) reached\n")
        (Limited Messages) }
    ensures none { formatted_telling 0 (codes ".pl 1\n.nf\nab\n.ll x\ncd\n.ll y\nef\n")
        ≡ gives (codes "ab\n") (codes "nroff: line 4: limit messages (0) reached\n")
        (Limited Messages) }
    ensures longest { formatted_telling 37 (codes ".pl 0\n")
        ≡ gives [] (codes "nroff: line 1: page length too small\n") Done }
    ensures both_texts { formatted_telling 7 (codes ".tm hi\n.tm you\n")
        ≡ gives [] (codes "hi\nyou\n") Done }
    ensures one_text { formatted_telling 6 (codes ".tm hi\n.tm you\n")
        ≡ gives [] (codes "hi\nnroff: line 2: limit messages (6) reached\n") (Limited Messages) }
    ensures no_text { formatted_telling 0 (codes ".tm hi\n.tm you\n")
        ≡ gives [] (codes "nroff: line 1: limit messages (0) reached\n") (Limited Messages) }
    ensures aborted { formatted_telling 0 (codes "a\n.ab")
        ≡ gives [] (codes "User Abort\n") Aborted }
    ensures aborted_behind_a_text { formatted_telling 3 (codes ".tm hi\n.ab stop\n")
        ≡ gives [] (codes "hi\nstop\n") Aborted }
{}
