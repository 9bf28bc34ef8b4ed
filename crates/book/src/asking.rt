//! Questions. They change nothing, and none calls another.

ghost use Rattle.std.specs.Prelude.{◌≡◌, ◌<◌, ◌≤◌, IfOk, OnOk};
ghost use Rattle.book.specs.Books.{accounts_of, shown};
ghost use Rattle.model.specs.Question.{asked, least_asked, question_checks};
ghost use Rattle.model.specs.Refusals.{checks};

use crate::books::Book;
use model::access::Access;
use model::answer::Answer;
use model::answering::answer_from;
use model::refusal::Refusal;
use plans::Plan;
use quick::quick_rows;
use standing::Standing;
use strategies::marks::Sign;
use strategies::strategy::Strategy;
use walked::{least_distance, walked_rows};

impl Book<'_> {
    // What a question reads.
    fn standing(&self) -> Standing<'_>
        ensures table { result.table.now ≡ self.now.table }
        ensures grants { result.grants.now ≡ (shown self.now).grants }
    {
        Standing {
            table: &self.table,
            grants: self.grants.standing(),
        }
    }

    // Checks what every question checks first.
    fn admit<P: Plan>(&self, plan: &P, access: Access) -> Result<(), Refusal>
        ensures answer { result ≡ checks (question_checks (accounts_of self.now) (P.Plan.meaning plan.now) access.account access.item access.right) }
        ensures known { OnOk result (access.account < accounts_of self.now) }
    {
        access.check(self.table.accounts())?;
        if !plan.known(access.item) {
            return Err(Refusal::ItemUnknown);
        }
        Ok(())
    }

    /// May the account use the right on the item, under the strategy and the plan? Read off the table of chain counts.
    ///
    /// Refused with 1 if the account is unknown, 7 if the right is above 7, 8 if the item is above 255, 12 if the plan does not
    /// know the item; the first of these in this order.
    #[tactic(auto, unfolding(model::specs::Question::asked, model::specs::Question::question_outcome))]
    pub fn quick<P: Plan>(
        &self,
        plan: &P,
        access: Access,
        strategy: Strategy,
    ) -> Result<Answer, Refusal>
        ensures answer { result ≡ asked (accounts_of self.now) (shown self.now) (P.Plan.meaning plan.now) access.account access.item access.right strategy }
        ensures few { IfOk result (λ a. (a.plus_total ≤ 104498155008) × (a.minus_total ≤ 104498155008)) }
    {
        self.admit(plan, access)?;
        // Written out in both questions, with no closure: what differs is the one call, and its contract would go along with it.
        let counted = quick_rows(&self.standing(), plan, access);
        Ok(answer_from(&counted, strategy))
    }

    /// The same question, answered by going down the memberships level by level.
    ///
    /// Refused as the quick question is.
    #[tactic(auto, unfolding(model::specs::Question::asked, model::specs::Question::question_outcome))]
    pub fn walked<P: Plan>(
        &self,
        plan: &P,
        access: Access,
        strategy: Strategy,
    ) -> Result<Answer, Refusal>
        ensures answer { result ≡ asked (accounts_of self.now) (shown self.now) (P.Plan.meaning plan.now) access.account access.item access.right strategy }
        ensures few { IfOk result (λ a. (a.plus_total ≤ 104498155008) × (a.minus_total ≤ 104498155008)) }
    {
        self.admit(plan, access)?;
        let met = walked_rows(&self.standing(), plan, access);
        Ok(answer_from(&met, strategy))
    }

    /// The least distance of an arrival of the sign at the account, on the item, for the right; none if none arrives. Found by
    /// going down the memberships.
    ///
    /// Refused as the quick question is.
    #[tactic(auto, unfolding(model::specs::Question::least_asked, model::specs::Question::question_outcome))]
    pub fn least<P: Plan>(
        &self,
        plan: &P,
        access: Access,
        sign: Sign,
    ) -> Result<Option<u8>, Refusal>
        ensures { result ≡ least_asked (accounts_of self.now) (shown self.now) (P.Plan.meaning plan.now) access.account access.item access.right sign }
    {
        self.admit(plan, access)?;
        Ok(least_distance(&self.standing(), plan, access, sign))
    }
}
