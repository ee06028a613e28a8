ghost use Rattle.std.specs.Prelude.{List, ℕ, IsTrue};
ghost use Rattle.ox_quorum.specs.Ensemble.{IsEnsemble};
ghost use Rattle.ox_quorum.specs.Forms.{ensemble as ensemble_form, config as config_form};

use crate::config::Config;
use crate::ensemble::Ensemble;

/// Every ensemble has a text, so that it can be written.
pub fn law_ensemble()
    ensures { (nodes : List ℕ) → IsEnsemble nodes → IsTrue (ensemble_form.is_lawful nodes) }
{}

/// This ensemble has a text.
fn see_ensemble(ensemble: &Ensemble)
    ensures { IsTrue (ensemble_form.is_lawful ensemble.now) }
{
    let _nodes = ensemble.nodes();
    law_ensemble();
}

/// This config has a text, so that it can be written. At run time it does nothing but look at the kind.
#[tactic(auto, unfolding(crate::specs::Forms::config))]
pub fn law_config(config: &Config)
    ensures { IsTrue (config_form.is_lawful config.now) }
{
    match config {
        Config::One(a) => see_ensemble(a),
        Config::Joint(a, b) => {
            see_ensemble(a);
            see_ensemble(b);
        }
    }
}
