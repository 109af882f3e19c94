// Examples of the documents, each as a line: places, admissions, short introns and flanks.
#![tactic(auto)]

mod admissions;
mod flanks;
mod introns;
mod places;
mod shown;
mod text;
mod transcripts;

fn main(rt: HostRuntime) {
    places::show(&rt);
    admissions::show(&rt);
    introns::show(&rt);
    flanks::show(&rt);
}
