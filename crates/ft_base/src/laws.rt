//! The laws of a journal's words. The functions do nothing: their contracts are facts.
ghost use Rattle.ft_base.specs.Laws.{StateGoesOn, ReplyIsNew, RepliesStay, RepliesGoOn, AllGoOnFitting, LastPlaceGoesOn, OnceGoesOn, JournalGoesOn, RepliesAreListed, RepliesAreGiven, StatesStay, IsReachedByOne, IsReachedByMore};

/// What a request that joins a journal at its end makes of it.
pub fn requests_join()
    ensures state { StateGoesOn }
    ensures reply { ReplyIsNew }
    ensures stay { RepliesStay }
    ensures replies { RepliesGoOn }
    ensures fit { AllGoOnFitting }
    ensures place { LastPlaceGoesOn }
    ensures once { OnceGoesOn }
    ensures journal { JournalGoesOn }
{}

/// What the replies of a journal are.
pub fn replies_are_given()
    ensures listed { RepliesAreListed }
    ensures given { RepliesAreGiven }
    ensures states { StatesStay }
{}

/// How far requests lead.
pub fn requests_lead_on()
    ensures one { IsReachedByOne }
    ensures more { IsReachedByMore }
{}
