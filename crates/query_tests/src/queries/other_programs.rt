//! Queries over commits and tags as other programs make them. `git hash-object --literally` gave
//! their names, and Git's commands print the same of them.

use crate::history::History;
use git_objects::{Naming, Sha1Naming};
use tenant_refs::Refs;

// The steps after those of the history.
//
// A signed commit on `MERGE`, whose author has a `>` in the name; a merge of it and of `THIRD` with
// a mergetag, a line `parent` after it, and names in uppercase digits; and a commit on that without
// an empty line. A tag of the merge without a tagger, whose own name has a space; a tag of this one
// without a name, with a further header and no empty line; and a tag of a tree.
const STEPS: &[u8] = b"\
    commit|tree 69203b20a0adc5adc82ae0598ca70d8bf68ee217\n\
        parent d257927dd0b4991858864b12862325a6587d882f\n\
        author A> B <a@b> 1 +0000\n\
        committer C <c@d> 1700006000 +0000\n\
        gpgsig -----BEGIN PGP SIGNATURE-----\n\
        \x20\n\
        \x20tree\n\
        \x20-----END PGP SIGNATURE-----\n\n\
        signed\n;\
    commit|tree 5FBBFB6DD76043CB343CA68AD9F8DB77ED1B1A3B\n\
        parent 299899A0202E3DD426D00F5229F957664890C1B7\n\
        parent f2971d6512f934904dc595b0ffad72a1703060d5\n%1700005000%\
        mergetag object f2971d6512f934904dc595b0ffad72a1703060d5\n\
        \x20type commit\n\
        \x20tag x\n\
        \x20\n\
        \x20x\n\
        parent 0d25961d6e542d9a79724e7f0b40fe87fe47fcd2\n\n\
        pulled\n;\
    commit|tree 69203b20a0adc5adc82ae0598ca70d8bf68ee217\n\
        parent 284f601825d22bfe1ea6fff748d0d65f8ffcc1c7\n\
        author A <a@b> 7 +0000\n\
        committer C <c@d> 1700007000 +0000\n\
        change-id x\n;\
    tag|object 284f601825d22bfe1ea6fff748d0d65f8ffcc1c7\n\
        type commit\n\
        tag x y\n\n\
        of no one\n;\
    tag|object 7DB4A50CCB7B4250D6A98AAE6378984D04F6D978\n\
        type tag\n\
        tag \n\
        further header\n\
        tagger T <t@u>\n;\
    tag|object 69203b20a0adc5adc82ae0598ca70d8bf68ee217\n\
        type tree\n\
        tag files\n\
        tagger T <t@u> 8 +0000\n\n\
        of a tree\n;\
    checkpoint";

// Each query after the number of its refusal, 0 where there is none, and before what it prints.
const PRINTED: &[u8] = b"\
    0|rev-parse 284f6018^{tree}|5fbbfb6dd76043cb343ca68ad9f8db77ed1b1a3b\n;\
    0|rev-parse 284f6018^2|f2971d6512f934904dc595b0ffad72a1703060d5\n;\
    16|rev-parse 284f6018^3;\
    0|rev-parse 284f6018~2|d257927dd0b4991858864b12862325a6587d882f\n;\
    0|rev-parse 299899a0^{tree}|69203b20a0adc5adc82ae0598ca70d8bf68ee217\n;\
    0|rev-parse 299899a0:dir/sub/deep.txt|83baae61804e65cc73a7201a7252750c76066a30\n;\
    0|rev-parse 7037366e~4|538eca3bc5adea9abe246f65b99ac61354f6ae52\n;\
    16|rev-parse 7037366e~6;\
    0|rev-parse 7db4a50c^{}|284f601825d22bfe1ea6fff748d0d65f8ffcc1c7\n;\
    0|rev-parse 7db4a50c^{tag}|7db4a50ccb7b4250d6a98aae6378984d04f6d978\n;\
    0|rev-parse 3c2d0786^{}|284f601825d22bfe1ea6fff748d0d65f8ffcc1c7\n;\
    0|rev-parse 3c2d0786^2|f2971d6512f934904dc595b0ffad72a1703060d5\n;\
    0|rev-parse 3c2d0786:a.txt|ce013625030ba8dba906f756967f9e9ca394464a\n;\
    0|rev-parse 35a4eb0c^{}|69203b20a0adc5adc82ae0598ca70d8bf68ee217\n;\
    15|rev-parse 35a4eb0c^{commit};\
    0|rev-parse 35a4eb0c:dir/sub|e14d1b044bb69a4c4edb016c4eaab03cf068d53a\n;\
    0|abbrev 3c2d078665db546f4fbf98f8338a8c9a9488d5cf|3c2d\n;\
    0|cat 3c2d0786|3c2d078665db546f4fbf98f8338a8c9a9488d5cf tag 92\n\
        object 7DB4A50CCB7B4250D6A98AAE6378984D04F6D978\n\
        type tag\n\
        tag \n\
        further header\n\
        tagger T <t@u>\n\n;\
    0|ls 35a4eb0c|100644 blob ce013625030ba8dba906f756967f9e9ca394464a\ta.txt\n\
        040000 tree 16492477522e49cd95198a6bef72af38fbf01355\tdir\n;\
    0|ls 299899a0|100644 blob ce013625030ba8dba906f756967f9e9ca394464a\ta.txt\n\
        040000 tree 16492477522e49cd95198a6bef72af38fbf01355\tdir\n;\
    0|log 7037366e|7037366e1a6cd1c136a69f178cd01ea440274a62 \n\
        299899a0202e3dd426d00f5229f957664890c1b7 signed\n\
        284f601825d22bfe1ea6fff748d0d65f8ffcc1c7 pulled\n\
        d257927dd0b4991858864b12862325a6587d882f merge\n\
        f2971d6512f934904dc595b0ffad72a1703060d5 third\n\
        538eca3bc5adea9abe246f65b99ac61354f6ae52 second\n\
        0d25961d6e542d9a79724e7f0b40fe87fe47fcd2 first\n;\
    0|log f2971d65..3c2d0786|299899a0202e3dd426d00f5229f957664890c1b7 signed\n\
        284f601825d22bfe1ea6fff748d0d65f8ffcc1c7 pulled\n\
        d257927dd0b4991858864b12862325a6587d882f merge\n\
        538eca3bc5adea9abe246f65b99ac61354f6ae52 second\n";

impl<N: Naming> History<N> {
    fn takes_other_programs(&mut self) -> bool {
        self.takes_history() && self.takes_all(STEPS)
    }

    fn other_programs_are_printed(&mut self) -> bool {
        self.takes_other_programs() && self.prints_all_without_refs()
    }

    fn prints_all_without_refs(&self) -> bool {
        let refs = Refs::new(self.alloc);
        let holds = self.prints_all(&refs, PRINTED);
        drop(refs);
        holds
    }
}

#[test]
fn objects_of_other_programs_are_printed_as_git_prints_them(rt: HostRuntime) {
    let mut history = History::new(rt.alloc(), Sha1Naming);
    let holds = history.other_programs_are_printed();
    drop(history);
    assert!(rt; holds);
}
