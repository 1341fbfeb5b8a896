//! What the definition of command lines makes of them, stated by the contracts of functions with
//! empty bodies.

ghost use Rattle.std.specs.Prelude.{◌≡◌, ℕ, List, [], ◌∷◌, ◌++◌, pos, negsuc, codes, None, Some};
ghost use Rattle.rr_line.specs.declared.precision.Precision.TheVariants.{Ns, Us, Ms, S};
ghost use Rattle.rr_words.specs.Words.{AskFor, AskForNothing, asked_at, check_lines, journal, lines_asked_by, node, node_asked_by, serve, serve_asked_by, sim};
ghost use Rattle.rr_words.specs.declared.order.JournalWord.TheVariants.{Check, Cells};

/// The options of `check-lines` take any text as their value, in either order; what they ask for
/// then depends on these texts. A script's file may have any name, as may the files of `serve` and
/// `node`, and a node's directory.
pub fn values_are_any_text()
    ensures file { (f : List ℕ) → AskFor (codes "sim" ∷ codes "--" ∷ f ∷ []) (sim (Some f)) }
    ensures precision { (p : List ℕ) → asked_at (codes "check-lines" ∷ (codes "--precision=" ++ p) ∷ [])
        ≡ lines_asked_by (Some p) None }
    ensures now { (t : List ℕ) → asked_at (codes "check-lines" ∷ (codes "--now=" ++ t) ∷ [])
        ≡ lines_asked_by None (Some t) }
    ensures both { (p t : List ℕ)
        → asked_at (codes "check-lines" ∷ (codes "--precision=" ++ p) ∷ (codes "--now=" ++ t) ∷ [])
        ≡ lines_asked_by (Some p) (Some t) }
    ensures both_the_other_way { (p t : List ℕ)
        → asked_at (codes "check-lines" ∷ (codes "--now=" ++ t) ∷ (codes "--precision=" ++ p) ∷ [])
        ≡ lines_asked_by (Some p) (Some t) }
    ensures serve { (n l s : List ℕ)
        → asked_at (codes "serve" ∷ codes "c" ∷ (codes "--origin=" ++ n) ∷ (codes "--load=" ++ l) ∷ (codes "--save=" ++ s) ∷ [])
        ≡ serve_asked_by (Some (codes "c")) (Some n) (Some l) (Some s) }
    ensures node { (d l : List ℕ)
        → asked_at (codes "node" ∷ codes "c" ∷ (codes "--data=" ++ d) ∷ (codes "--load=" ++ l) ∷ [])
        ≡ node_asked_by (Some (codes "c")) (Some d) (Some l) }
{}

/// Command lines of each kind, written out, ask for what they should, or are refused.
pub fn command_lines_are_read()
    ensures no_words { AskFor [] (sim None) }
    ensures sim { AskFor (codes "sim" ∷ []) (sim None) }
    ensures sim_of_a_file { AskFor (codes "sim" ∷ codes "f" ∷ []) (sim (Some (codes "f"))) }
    ensures check_lines { AskFor (codes "check-lines" ∷ [])
        (check_lines Ns (pos 0)) }
    ensures ns { AskFor (codes "check-lines" ∷ codes "--precision" ∷ codes "ns" ∷ [])
        (check_lines Ns (pos 0)) }
    ensures us { AskFor (codes "check-lines" ∷ codes "--precision" ∷ codes "us" ∷ [])
        (check_lines Us (pos 0)) }
    ensures ms { AskFor (codes "check-lines" ∷ codes "--precision=ms" ∷ [])
        (check_lines Ms (pos 0)) }
    ensures s { AskFor (codes "check-lines" ∷ codes "--precision=s" ∷ codes "--now" ∷ codes "5" ∷ [])
        (check_lines S (pos 5)) }
    ensures below_zero { AskFor (codes "check-lines" ∷ codes "--now=-5" ∷ [])
        (check_lines Ns (negsuc 4)) }
    ensures serve { AskFor (codes "serve" ∷ codes "c" ∷ codes "--origin" ∷ codes "7" ∷ [])
        (serve (codes "c") 7 None None) }
    ensures serve_from_a_snapshot { AskFor (codes "serve" ∷ codes "--origin=65535" ∷ codes "--load" ∷ codes "l" ∷ codes "c" ∷ [])
        (serve (codes "c") 65535 (Some (codes "l")) None) }
    ensures node { AskFor (codes "node" ∷ codes "c" ∷ codes "--data" ∷ codes "d" ∷ [])
        (node (codes "c") (codes "d") None) }
    ensures node_from_a_snapshot { AskFor (codes "node" ∷ codes "--data=d" ∷ codes "--load" ∷ codes "l" ∷ codes "c" ∷ [])
        (node (codes "c") (codes "d") (Some (codes "l"))) }
    ensures journal_check { AskFor (codes "journal" ∷ codes "check" ∷ codes "d" ∷ [])
        (journal Check (codes "d")) }
    ensures journal_cells { AskFor (codes "journal" ∷ codes "cells" ∷ codes "d" ∷ [])
        (journal Cells (codes "d")) }

    // A word that begins with a dash is no value, and a number has no plus.
    ensures dashed_word { AskForNothing (codes "check-lines" ∷ codes "--now" ∷ codes "-5" ∷ []) }
    ensures plus { AskForNothing (codes "check-lines" ∷ codes "--now=+5" ∷ []) }
    ensures past_i64 { AskForNothing (codes "check-lines" ∷ codes "--now=9223372036854775808" ∷ []) }
    ensures other_precision { AskForNothing (codes "check-lines" ∷ codes "--precision" ∷ codes "h" ∷ []) }
    ensures two_files { AskForNothing (codes "sim" ∷ codes "f" ∷ codes "g" ∷ []) }
    ensures no_origin { AskForNothing (codes "serve" ∷ codes "c" ∷ []) }
    ensures origin_0 { AskForNothing (codes "serve" ∷ codes "c" ∷ codes "--origin" ∷ codes "0" ∷ []) }
    ensures past_origins { AskForNothing (codes "serve" ∷ codes "c" ∷ codes "--origin=65536" ∷ []) }
    ensures no_configuration { AskForNothing (codes "serve" ∷ codes "--origin" ∷ codes "7" ∷ []) }
    ensures no_directory { AskForNothing (codes "node" ∷ codes "c" ∷ []) }
    ensures node_of_no_configuration { AskForNothing (codes "node" ∷ codes "--data" ∷ codes "d" ∷ []) }
    ensures node_of_an_origin { AskForNothing (codes "node" ∷ codes "c" ∷ codes "--data=d" ∷ codes "--origin=7" ∷ []) }
    ensures journal_of_nothing { AskForNothing (codes "journal" ∷ codes "check" ∷ []) }
    ensures other_journal_word { AskForNothing (codes "journal" ∷ codes "frob" ∷ codes "d" ∷ []) }
    ensures other_word { AskForNothing (codes "frob" ∷ []) }
    ensures help { AskForNothing (codes "--help" ∷ []) }
    ensures version { AskForNothing (codes "--version" ∷ []) }
{}
