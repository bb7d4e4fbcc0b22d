// Runs the numbering of terms and the methods of a rule, then worked examples of the sources: rules are put into a table and printed, then the reply to the key
// call, then the key; last, scripts marked against sheets, as tables and as texts. The stored output is written from the sources' own numbers.
#![tactic(auto)]

mod meets;
mod methods;
mod numbering;
mod printing;
mod ranges;
mod refusals;
mod replies;
mod scope;
mod sheet;
mod slides;
mod texts;
mod thesis;
mod verdicts;

fn main(rt: HostRuntime) {
    numbering::run(&rt);
    methods::run(&rt);
    thesis::run(&rt);
    slides::run(&rt);
    scope::run(&rt);
    verdicts::run(&rt);
    refusals::run(&rt);
    ranges::run(&rt);
    texts::run(&rt);
}
