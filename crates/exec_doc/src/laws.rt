//! Laws of documents: each function's contract says one, and its body is empty or calls the laws that it rests on.
ghost use Rattle.std.specs.Prelude.{◌≡◌, ℕ, ◌<◌, List, Some, None, is_some, true, false};
ghost use Rattle.serde_json.specs.Data.{Data};
ghost use Rattle.exec_doc.specs.Document.{document_of, plan_in};
ghost use Rattle.exec_doc.specs.Upgrade.{upgraded};
ghost use Rattle.exec_doc.specs.Refusals.{document_value, refused_number, may_refuse, refusal_of};
ghost use Rattle.exec_doc.specs.declared.refused.Refused.{Refused};
ghost use Rattle.exec_plan.specs.Lawful.{IsLawfulPlan};
ghost use Rattle.exec_plan.specs.Plan.{PlanData};

/// Bytes are refused by a code that holds of what was read, and no lesser one does. If they aren't refused, none holds.
pub fn the_least_code_counts()
    ensures holds { (bytes : List ℕ) (code : Refused) → refusal_of bytes ≡ Some code → may_refuse code (document_value bytes) ≡ true }
    ensures least { (bytes : List ℕ) (code : Refused) → refusal_of bytes ≡ Some code →
        (lesser : Refused) → refused_number lesser < refused_number code → may_refuse lesser (document_value bytes) ≡ false }
    ensures none { (bytes : List ℕ) (code : Refused) → refusal_of bytes ≡ None → may_refuse code (document_value bytes) ≡ false }
{}

/// Bytes are refused or say a plan, and never both.
pub fn refused_or_a_plan()
    ensures plan { (bytes : List ℕ) → refusal_of bytes ≡ None → is_some (document_of bytes) ≡ true }
    ensures refused { (bytes : List ℕ) (code : Refused) → refusal_of bytes ≡ Some code → document_of bytes ≡ None }
{
    exec_graph::laws::drafts_without_faults_have_lawful_graphs();
}

/// Bytes say at most one plan.
pub fn one_plan_at_most()
    ensures { (bytes : List ℕ) (plan other : PlanData) → document_of bytes ≡ Some plan → document_of bytes ≡ Some other → plan ≡ other }
{}

/// A plan that bytes say is lawful. Its names are resolved, its scripts are legal in their places, and its limits hold.
pub fn plans_are_lawful()
    ensures { (bytes : List ℕ) (plan : PlanData) → document_of bytes ≡ Some plan → IsLawfulPlan plan }
{
    exec_graph::laws::drafts_without_faults_have_lawful_graphs();
    exec_graph::laws::names_find_what_they_are_declared_as();
    exec_plan::laws::plans_without_faults_are_lawful();
}

/// The upgrade of a value that says a plan says the same plan.
pub fn upgrades_say_the_same_plan()
    ensures { (value : Data) (plan : PlanData) → plan_in (Some value) ≡ Some plan → plan_in (Some (upgraded plan.order value)) ≡ Some plan }
{}
