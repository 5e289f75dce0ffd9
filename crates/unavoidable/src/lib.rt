// No code: premium tables that fall and rise with strike, and that an order is undetermined only where they disagree.
#![tactic(auto)]
