//! A model text and its rule files have one answer of deployment: they mean one accepted model, or are refused for
//! one thing, and not both.
//!
//! The contract of `model_deploy::deploy` says what an answer means; the law says that there is only one such answer,
//! so that a model is accepted exactly where no check refuses it. It does nothing when it runs.
#![tactic(auto)]

ghost use Rattle.std.specs.Prelude.{List, Option};
ghost use Rattle.model_text.specs.Contents.{Contents};
ghost use Rattle.model_bind.specs.Files.{RuleFile};
ghost use Rattle.model_deploy.specs.Deployment.{deployment};
ghost use Rattle.deploy_laws.specs.OneAnswer.{HasOneAnswer};

/// Deployment finds one model in a text and its rule files, or refuses them for one fault, and not both.
pub fn deployments_have_one_answer()
    ensures { (text : Contents) (files : List (Option RuleFile)) → HasOneAnswer (deployment text files) }
{}
