//! The law of the definition of what words ask for, on a function that does nothing.

ghost use Rattle.std.specs.Prelude.{◌≡◌, List, [], Err, None, Some, true, false, codes};
ghost use Rattle.clap.specs.Words.{Row, fault_of};
ghost use Rattle.casa_filing.specs.Text.{Text};
ghost use Rattle.casa_cli.specs.Checks.{AreRead, AreServed, compare_request, first_wrong, import_checks, import_request, journal_checks, journal_request, load_checks, load_request, messages_checks, messages_request, page_checks, page_request, report_checks, report_request, run_checks, run_request, serve_checks, serve_request, stay_checks, stay_request, summary_checks, summary_request, unless_wrong, why_checks, why_request};
ghost use Rattle.casa_usage.specs.Usage.{whole_app};
ghost use Rattle.casa_cli.specs.Words.{Clash, clash_of, clashing, request_of};

/// Words in which clap finds a fault ask for nothing. Of words that it reads, what is wrong is a clash of options;
/// where there is none, it is that of the first check that holds, in the order of the subcommand's list; where none
/// holds, they ask for what its options say.
pub fn words_have_the_first_wrong_value()
    ensures unread { (words : List Text) → (fault_of whole_app words ≡ [] → ⊥)
        → request_of words ≡ None }
    ensures run { (words : List Text) (rows : List Row) → AreRead words (codes "run") rows →
        request_of words ≡ unless_wrong (first_wrong (run_checks rows)) (run_request rows) }
    ensures import { (words : List Text) (rows : List Row) → AreRead words (codes "import") rows →
        request_of words ≡ unless_wrong (first_wrong (import_checks rows)) (import_request rows) }
    ensures report { (words : List Text) (rows : List Row) → AreRead words (codes "report") rows →
        request_of words ≡ unless_wrong (first_wrong (report_checks rows)) (report_request rows) }
    ensures load { (words : List Text) (rows : List Row) → AreRead words (codes "load") rows →
        request_of words ≡ unless_wrong (first_wrong (load_checks rows)) (load_request rows) }
    ensures summary { (words : List Text) (rows : List Row) → AreRead words (codes "summary") rows →
        request_of words ≡ unless_wrong (first_wrong (summary_checks rows)) (summary_request rows) }
    ensures why { (words : List Text) (rows : List Row) → AreRead words (codes "why") rows →
        request_of words ≡ unless_wrong (first_wrong (why_checks rows)) (why_request rows) }
    ensures messages { (words : List Text) (rows : List Row) → AreRead words (codes "messages") rows →
        request_of words ≡ unless_wrong (first_wrong (messages_checks rows)) (messages_request rows) }
    ensures compare { (words : List Text) (rows : List Row) → AreRead words (codes "compare") rows →
        request_of words ≡ unless_wrong (first_wrong (summary_checks rows)) (compare_request rows) }
    ensures page { (words : List Text) (rows : List Row) → AreRead words (codes "page") rows →
        request_of words ≡ unless_wrong (first_wrong (page_checks rows)) (page_request rows) }
    ensures clash { (words : List Text) (rows : List Row) (clash : Clash) → AreRead words (codes "serve") rows
        → clash_of rows ≡ Some clash → request_of words ≡ Some (Err (clashing clash)) }
    ensures serve { (words : List Text) (rows : List Row) → AreServed words false rows →
        request_of words ≡ unless_wrong (first_wrong (serve_checks rows)) (serve_request rows) }
    ensures stay { (words : List Text) (rows : List Row) → AreServed words true rows →
        request_of words ≡ unless_wrong (first_wrong (stay_checks rows)) (stay_request rows) }
    ensures journal { (words : List Text) (rows : List Row) → AreRead words (codes "journal") rows →
        request_of words ≡ unless_wrong (first_wrong (journal_checks rows)) (journal_request rows) }
{}
