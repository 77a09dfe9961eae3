//! Laws of the run over a line: what its definition says beyond each turn.
#![tactic(auto)]

ghost use Rattle.std.specs.Prelude.{◌≡◌, ◌≢◌, ℕ, ◌+◌, ◌≤◌, List, length, take, Option};
ghost use Rattle.pattern_defs.specs.declared.outcomes.Place.{Place};
ghost use Rattle.onig_match.specs.Works.{IsPart};
ghost use Rattle.scope_defs.specs.Frames.{Start, depth, bare};
ghost use Rattle.rule_defs.specs.Rules.{BeginEnd, Entry};
ghost use Rattle.line_defs.specs.Machine.{Machine, rule_at};
ghost use Rattle.line_defs.specs.Frames.{start_of};
ghost use Rattle.line_defs.specs.Following.{Follow};
ghost use Rattle.line_defs.specs.Tokens.{Output};
ghost use Rattle.line_defs.specs.Runs.{State, GoesOn};
ghost use Rattle.line_defs.specs.Search.{Choice, Matched, At, Sight, scan};
ghost use Rattle.line_defs.specs.Injections.{search};
ghost use Rattle.line_defs.specs.Captures.{Running, Around, inner_state};
ghost use Rattle.line_defs.specs.Turns.{run_from};
ghost use Rattle.line_defs.specs.WhilePass.{while_pass};
ghost use Rattle.line_defs.specs.Line.{run_over, with_line_feed, at_front, line_run, tokenised};
ghost use Rattle.line_laws.specs.Matches.{LiesIn};
ghost use Rattle.line_laws.specs.RunEnds.{RunsTo, IsRooted, most_frames_in_captures, IsRunning};
ghost use Rattle.line_laws.specs.Starts.{IsFit};
ghost use Rattle.line_laws.specs.Ways.{Way, Leads, tokenised_along};

/// What is found lies in its text, from the place of the search on, and so does what its groups took.
pub fn matches_lie_in_their_text()
    ensures scan { (s : Sight) (choices : List Choice) (m : Matched) → s.place ≤ length s.text →
        scan s choices ≡ At m → LiesIn s.place (length s.text) m }
    ensures search { (machine : Machine) (text : List ℕ) (state : State) (m : Matched) → state.place ≤ length text →
        search machine text state ≡ At m → LiesIn state.place (length text) m }
{}

/// A run over a text ends by itself, for every grammar, every text and every run inside captures: the number of turns
/// in its definition bounds nothing.
pub fn runs_end_by_themselves()
    ensures { (machine : Machine) (inside : Option Running) (text : List ℕ) (state : State) →
        IsRunning (record { machine = machine; inside = inside; text = text }) state →
        RunsTo (record { machine = machine; inside = inside; text = text }) state (run_from machine inside text state) }
{}

/// A text starts where a line may start, if its grammar's first rule has no end, and each line leaves such a start to
/// the next.
pub fn lines_start_where_they_fit()
    ensures first { (machine : Machine) (scope_name : List ℕ) → (rule_at machine 0).kind ≢ BeginEnd →
        IsFit machine (start_of scope_name) }
    ensures bare { (machine : Machine) (start : Start) → IsFit machine start → IsFit machine (bare start) }
    ensures next { (machine : Machine) (start : Start) (line : List ℕ) → IsFit machine start →
        IsFit machine (tokenised machine start line).end }
{}

/// From such a start the run over a line may go on at its front and behind the while pass, and ends by itself. So may a
/// run over a capture, where its frame isn't one too many.
pub fn runs_over_lines_end_by_themselves()
    ensures front { (machine : Machine) (start : Start) (line : List ℕ) → IsFit machine start →
        IsRunning (run_over machine (with_line_feed line)) (at_front start) }
    ensures passed { (machine : Machine) (start : Start) (line : List ℕ) (state : State) → IsFit machine start →
        while_pass (run_over machine (with_line_feed line)) (at_front start) ≡ GoesOn state →
        IsRunning (run_over machine (with_line_feed line)) state }
    ensures ends { (machine : Machine) (start : Start) (line : List ℕ) (state : State) → IsFit machine start →
        while_pass (run_over machine (with_line_feed line)) (at_front start) ≡ GoesOn state →
        RunsTo (run_over machine (with_line_feed line)) state
        (line_run machine (with_line_feed line) (at_front start)) }
    ensures inside { (machine : Machine) (inside : Option Running) (c : Around) (entry : Entry) (rule : ℕ)
        (taken : Place) (out : Output) → IsPart (length c.text) taken →
        depth c.stack + 1 ≤ most_frames_in_captures → IsRooted machine c.stack.top c.stack.below →
        IsRunning (record { machine = machine; inside = inside; text = take taken.to c.text })
        (inner_state c entry rule taken out) }
{}

/// A line has a token, and its tokens follow one another from its front to its end, whatever its patterns are.
pub fn tokens_cover_their_line()
    ensures { (machine : Machine) (start : Start) (line : List ℕ) → IsFit machine start →
        Follow (tokenised machine start line).tokens (length line) }
{}

/// A line goes alike from two starts that are one up to what is forgotten from line to line.
pub fn starts_count_by_what_is_not_forgotten()
    ensures bare { (machine : Machine) (start : Start) (line : List ℕ) →
        tokenised machine (bare start) line ≡ tokenised machine start line }
    ensures alike { (machine : Machine) (start other : Start) (line : List ℕ) → bare start ≡ bare other →
        tokenised machine start line ≡ tokenised machine other line }
{}

/// A line is told by its turns alone: whatever way leads each run over it, and over captures in it, turn by turn to
/// where it stops, what it gives is what the definition says. The number of turns in the definition is such a way, and
/// counts for nothing else.
pub fn turns_alone_tell_a_line()
    ensures same { (machine : Machine) (way : Way) (start : Start) (line : List ℕ) → Leads machine way →
        IsFit machine start → tokenised_along way machine start line ≡ tokenised machine start line }
    ensures leads { (machine : Machine) → Leads machine (run_from machine) }
{}
