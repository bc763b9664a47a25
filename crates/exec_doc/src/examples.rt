//! Worked upgrades: each function's contract says to which text documents are brought, or that they have none.
#![tactic(auto, unfolding(crate::proofs::OnLiterals::upgrade_on_literals))]

ghost use Rattle.std.specs.Prelude.{◌≡◌, Some, None, codes};
ghost use Rattle.exec_doc.specs.Examples.{timer_text, timer_upgraded, all_objects_text, all_objects_upgraded};
ghost use Rattle.exec_doc.specs.Refusals.{refusal_of};
ghost use Rattle.exec_doc.specs.Upgrade.{upgraded_text};
ghost use Rattle.exec_doc.specs.declared.refused.Refused.TheVariants.{Version};

/// Documents of either version that say the empty plan, one of them with fields that are ignored. They have one upgrade.
pub fn upgrades_of_the_empty_plan()
    ensures version_1 { upgraded_text (codes "{\"version\":1}") ≡ Some (codes "{\"order\":\"kind\",\"version\":2}") }
    ensures version_2 { upgraded_text (codes "{\"version\":2}") ≡ Some (codes "{\"order\":\"kind\",\"version\":2}") }
    ensures ignored { upgraded_text (codes "{\"version\":1,\"order\":7,\"extra\":[true]}") ≡ Some (codes "{\"order\":\"kind\",\"version\":2}") }
{}

/// A document that is refused has no upgrade.
pub fn no_upgrade()
    ensures refused { refusal_of (codes "{\"version\":3}") ≡ Some Version }
    ensures version { upgraded_text (codes "{\"version\":3}") ≡ None }
    ensures shape { upgraded_text (codes "{\"version\":2,\"order\":7}") ≡ None }
{}

/// A document with one timer. The fields of each object come in the order of their names.
pub fn upgrade_of_a_timer()
    ensures { upgraded_text timer_text ≡ Some timer_upgraded }
{}

/// One of each object and of each form of an entry. Fields that their object or form doesn't have are left out. The others
/// stay as they are.
pub fn upgrade_of_all_objects()
    ensures { upgraded_text all_objects_text ≡ Some all_objects_upgraded }
{}
