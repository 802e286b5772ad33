//! Examples of worlds that show less, in a crate of their own.
#![tactic(auto)]

ghost use Rattle.std.specs.Prelude.{true, false};
ghost use Rattle.projection_tests.specs.Pairs.{Agree, AreHidden, all_read, none_read};
ghost use Rattle.projection_tests.specs.Premises.{gone_pairs, hidden_pairs, initialiser_pairs};
ghost use Rattle.projection_tests.specs.Premises.{lost_pairs};
ghost use Rattle.projection_tests.specs.Surviving.{surviving_pairs};
ghost use Rattle.projection_tests.specs.Wrong.{WrongOnes};

/// Each question about a pair of worlds has the two answers that stand beside it: the same one
/// where it survives, and another one where a premise of the laws doesn't hold.
pub fn answers_agree()
    ensures surviving { Agree surviving_pairs }
    ensures unhidden { AreHidden all_read false surviving_pairs }
    ensures hidden { Agree hidden_pairs }
    ensures are_hidden { AreHidden all_read true hidden_pairs }
    ensures unread { AreHidden none_read false hidden_pairs }
    ensures lost { Agree lost_pairs }
    ensures initialiser { Agree initialiser_pairs }
    ensures gone { Agree gone_pairs }
{}

/// What a wrong stripping leaves doesn't keep the answers.
pub fn wrong_strippings_lose_answers()
    ensures { WrongOnes }
{}
