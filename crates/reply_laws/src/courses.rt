//! Laws of what is loaded while a script is answered.
ghost use Rattle.std.specs.Prelude.{ℕ, List};
ghost use Rattle.reply_laws.specs.States.{StateHasGivenIds, StateKeepsLimits};
ghost use Rattle.reply_model.specs.Replies.{Course, IsTurn, start};
ghost use Rattle.request_model.specs.Requests.{Asked};
ghost use Rattle.stream_model.specs.Ledger.{Log};
ghost use Rattle.layout_model.specs.Setting.{Setting};

/// What is loaded never has an id twice, nor one that is still to be given: it is so at the start,
/// and each turn leaves it so.
pub fn keep_given_ids()
    ensures at_the_start { StateHasGivenIds start.state }
    ensures each_turn { (setting : Setting) (from to : Course) (asked : Asked) (own : List Log)
        (reply : List ℕ)
        → StateHasGivenIds from.state → IsTurn setting from asked own reply to → StateHasGivenIds to.state }
{}

/// What is loaded never breaks a limit: of the names, attributes, texts, levels, nodes and ids of the
/// document, of the sides of the viewport, and of the style sheets.
pub fn keep_limits()
    ensures at_the_start { StateKeepsLimits start.state }
    ensures each_turn { (setting : Setting) (from to : Course) (asked : Asked) (own : List Log)
        (reply : List ℕ)
        → StateHasGivenIds from.state → StateKeepsLimits from.state
        → IsTurn setting from asked own reply to → StateKeepsLimits to.state }
{}
