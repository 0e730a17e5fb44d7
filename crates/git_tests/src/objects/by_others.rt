//! Commits, trees and tags that git keeps, whoever wrote them. git 2.39 made each with
//! `git hash-object -t KIND -w --literally --stdin`, and what it says of each is expected here.

use git_names::{Memory, Name, kind_word};
use git_objects::{
    CommitParts, TagParts, TreeEntry, append_listing, append_parts, look_commit, look_tag,
    look_tree, time_of,
};
use std::alloc::Global;

// A merged tag, a signature and an unknown header between the lines that every commit has, and an
// encoding after one line that looks like another.
const SIGNED: &[u8] = b"tree 4b825dc642cb6eb9a060e54bf8d69288fbee4904\n\
    parent b7eef8f1327852349f390c62934ce963aac28f95\n\
    author A> U Thor <author@example.com> 1112911993 -0700\n\
    committer C O Mitter <committer@example.com> 1700000000 +0230\n\
    mergetag object b7eef8f1327852349f390c62934ce963aac28f95\n type commit\n tag v1\n \
    tagger T <t@example.com> 5 +0000\n \n encoding x\n\
    encoding ISO-8859-1\n\
    gpgsig -----BEGIN PGP SIGNATURE-----\n \n iQEz\n -----END PGP SIGNATURE-----\n\
    HG:extra a:b\n\
    \n\
    Signed\n";

// A parent's line after the committer's, which names no parent.
const LATE_PARENT: &[u8] = b"tree 4b825dc642cb6eb9a060e54bf8d69288fbee4904\n\
    author A U Thor <author@example.com> 1112911993 -0700\n\
    committer C O Mitter <committer@example.com> 1112912053 +0230\n\
    parent b7eef8f1327852349f390c62934ce963aac28f95\n\
    \n\
    Late parent\n";

// Each commit, and what `git log -1 --date=raw` says of it under the format
// `tformat:%T%n%P%n%an <%ae> %ad%n%cn <%ce> %cd%n%e%n%B`.
const COMMITS: &[(&[u8], &[u8])] = &[
    (
        SIGNED,
        b"4b825dc642cb6eb9a060e54bf8d69288fbee4904\n\
        b7eef8f1327852349f390c62934ce963aac28f95\n\
        A> U Thor <author@example.com> 1112911993 -0700\n\
        C O Mitter <committer@example.com> 1700000000 +0230\n\
        ISO-8859-1\n\
        Signed\n\n",
    ),
    (
        LATE_PARENT,
        b"4b825dc642cb6eb9a060e54bf8d69288fbee4904\n\
        \n\
        A U Thor <author@example.com> 1112911993 -0700\n\
        C O Mitter <committer@example.com> 1112912053 +0230\n\
        \n\
        Late parent\n\n",
    ),
];

// Of these `git log` says `bogus commit object` and `bad parents in commit`.
const NO_COMMITS: &[&[u8]] = &[
    b"tree 4b825dc642cb6eb9a060e54bf8d69288fbee490g\n",
    b"tree 4b825dc642cb6eb9a060e54bf8d69288fbee4904\n\
    parent b7eef8f1327852349f390c62934ce963aac28f95\n\
    parent x\n\
    author A U Thor <author@example.com> 1112911993 -0700\n\
    committer C O Mitter <committer@example.com> 1112912053 +0230\n\
    \n\
    x\n",
];

// What `git rev-list --timestamp --no-walk` says of commits.
const TIMES: &[(&[u8], u64)] = &[
    (SIGNED, 1_700_000_000),
    (LATE_PARENT, 1_112_912_053),
    (
        b"tree 4B825DC642CB6EB9A060E54BF8D69288FBEE4904\n\
        author A U Thor <author@example.com> 1112911993 -0700\n\
        committer C O Mitter <committer@example.com> 1112912053\n\n\n",
        1_112_912_053,
    ),
];

// Old modes, modes with a leading zero, and names that are out of order, stand twice, or are paths.
const ODD_TREE: &[u8] =
    b"100664 z\0\xce\x016%\x03\x0b\xa8\xdb\xa9\x06\xf7V\x96\x7f\x9e\x9c\xa3\x94FJ\
    040000 a\0K\x82]\xc6B\xcbn\xb9\xa0`\xe5K\xf8\xd6\x92\x88\xfb\xeeI\x04\
    100600 b\0\xce\x016%\x03\x0b\xa8\xdb\xa9\x06\xf7V\x96\x7f\x9e\x9c\xa3\x94FJ\
    100744 x\0\xce\x016%\x03\x0b\xa8\xdb\xa9\x06\xf7V\x96\x7f\x9e\x9c\xa3\x94FJ\
    100655 y\0\xce\x016%\x03\x0b\xa8\xdb\xa9\x06\xf7V\x96\x7f\x9e\x9c\xa3\x94FJ\
    40755 ..\0K\x82]\xc6B\xcbn\xb9\xa0`\xe5K\xf8\xd6\x92\x88\xfb\xeeI\x04\
    120777 a\0\xce\x016%\x03\x0b\xa8\xdb\xa9\x06\xf7V\x96\x7f\x9e\x9c\xa3\x94FJ\
    0160000 s\0\xb7\xee\xf8\xf12xR4\x9f9\x0cb\x93L\xe9c\xaa\xc2\x8f\x95\
    0 n\0\xb7\xee\xf8\xf12xR4\x9f9\x0cb\x93L\xe9c\xaa\xc2\x8f\x95\
    100644 d/e\0\xce\x016%\x03\x0b\xa8\xdb\xa9\x06\xf7V\x96\x7f\x9e\x9c\xa3\x94FJ";

// What `git ls-tree` says of it.
const ODD_TREE_LISTED: &[u8] = b"100644 blob ce013625030ba8dba906f756967f9e9ca394464a\tz\n\
    040000 tree 4b825dc642cb6eb9a060e54bf8d69288fbee4904\ta\n\
    100644 blob ce013625030ba8dba906f756967f9e9ca394464a\tb\n\
    100755 blob ce013625030ba8dba906f756967f9e9ca394464a\tx\n\
    100644 blob ce013625030ba8dba906f756967f9e9ca394464a\ty\n\
    040000 tree 4b825dc642cb6eb9a060e54bf8d69288fbee4904\t..\n\
    120000 blob ce013625030ba8dba906f756967f9e9ca394464a\ta\n\
    160000 commit b7eef8f1327852349f390c62934ce963aac28f95\ts\n\
    160000 commit b7eef8f1327852349f390c62934ce963aac28f95\tn\n\
    100644 blob ce013625030ba8dba906f756967f9e9ca394464a\td/e\n";

// Of these `git ls-tree` says `empty filename in tree entry`, four times `malformed mode in tree
// entry`, and twice `too-short tree object`.
const NO_TREES: &[&[u8]] = &[
    b"100644 \0oooooooooooooooooooo",
    b"10064x a\0oooooooooooooooooooo",
    b"100648 a\0oooooooooooooooooooo",
    b" a\0oooooooooooooooooooo",
    b"100644\0oooooooooooooooooooo",
    b"100644 a\0ooooooooooooooooooo",
    b"100644 aoooooooooooooooooooo",
];

// Each tag, and what `git for-each-ref` says of it under the format
// `%(object)%0a%(type)%0a%(tag)%0a%(tagger)%0a%(contents)`.
const TAGS: &[(&[u8], &[u8])] = &[
    (
        b"object 4b825dc642cb6eb9a060e54bf8d69288fbee4904\n\
        type tree\n\
        tag v2.6.11-tree\n\
        \n\
        Tag of a tree\n",
        b"4b825dc642cb6eb9a060e54bf8d69288fbee4904\n\
        tree\n\
        v2.6.11-tree\n\
        \n\
        Tag of a tree\n\n",
    ),
    (
        b"object ce013625030ba8dba906f756967f9e9ca394464a\n\
        type blob\n\
        tag \n\
        foo bar\n baz\n\
        tagger T A Gger <tagger@example.com> 1112912053 +0230\n\
        tagger X <x@example.com> 2 +0000\n\
        \n\
        Further headers\n",
        b"ce013625030ba8dba906f756967f9e9ca394464a\n\
        blob\n\
        \n\
        T A Gger <tagger@example.com> 1112912053 +0230\n\
        Further headers\n\n",
    ),
];

// Git reads none of these: the name has no line end, the type is `unknown tag type`, and the lines
// are in another order.
const NO_TAGS: &[&[u8]] = &[
    b"object ce013625030ba8dba906f756967f9e9ca394464a\ntype blob\ntag x",
    b"object ce013625030ba8dba906f756967f9e9ca394464a\ntype blub\ntag x\n\n",
    b"object ce013625030ba8dba906f756967f9e9ca394464a\ntag x\ntype blob\n\n",
];

fn append_names(names: &[Name], out: &mut Vec<u8>) -> Result<(), Memory> {
    for (at, name) in names.iter().enumerate() {
        if at > 0 {
            append_parts(&[b" "], out)?;
        }
        append_parts(&[&name.to_hex()], out)?;
    }
    Ok(())
}

fn say_commit(parts: &CommitParts<'_>, out: &mut Vec<u8>) -> Result<(), Memory> {
    append_parts(&[&parts.tree.to_hex(), b"\n"], out)?;
    append_names(&parts.ancestors, out)?;
    append_parts(&[b"\n", parts.author, b"\n", parts.committer, b"\n"], out)?;
    append_parts(
        &[parts.encoding.unwrap_or(b""), b"\n", parts.message, b"\n"],
        out,
    )
}

fn say_tree(entries: &[TreeEntry<'_>], out: &mut Vec<u8>) -> Result<(), Memory> {
    for entry in entries {
        append_listing(entry.mode, entry.id, entry.name, out)?;
        append_parts(&[b"\n"], out)?;
    }
    Ok(())
}

fn say_tag(parts: &TagParts<'_>, out: &mut Vec<u8>) -> Result<(), Memory> {
    append_parts(
        &[&parts.target.to_hex(), b"\n", kind_word(parts.kind), b"\n"],
        out,
    )?;
    append_parts(
        &[parts.name, b"\n", parts.tagger.unwrap_or(b""), b"\n"],
        out,
    )?;
    append_parts(&[parts.message, b"\n"], out)
}

fn is_said_of_commit(alloc: Global, contents: &[u8], expected: &[u8]) -> bool {
    let mut said = Vec::new(alloc);
    match look_commit(alloc, contents) {
        Ok(Some(parts)) => say_commit(&parts, &mut said).is_ok() && said.as_slice() == expected,
        _ => false,
    }
}

fn is_said_of_tree(alloc: Global, contents: &[u8], expected: &[u8]) -> bool {
    let mut said = Vec::new(alloc);
    match look_tree(alloc, contents) {
        Ok(Some(entries)) => say_tree(&entries, &mut said).is_ok() && said.as_slice() == expected,
        _ => false,
    }
}

fn is_said_of_tag(alloc: Global, contents: &[u8], expected: &[u8]) -> bool {
    let mut said = Vec::new(alloc);
    match look_tag(contents) {
        Some(parts) => say_tag(&parts, &mut said).is_ok() && said.as_slice() == expected,
        None => false,
    }
}

fn is_no_commit(alloc: Global, contents: &[u8]) -> bool {
    matches!(look_commit(alloc, contents), Ok(None))
}

fn is_no_tree(alloc: Global, contents: &[u8]) -> bool {
    matches!(look_tree(alloc, contents), Ok(None))
}

#[test]
fn says_of_commits_what_git_says(rt: HostRuntime) {
    let alloc = rt.alloc();
    assert_eq!(rt;
        COMMITS
            .iter()
            .position(|row| !is_said_of_commit(alloc, row.0, row.1)),
        None
    );
    assert_eq!(rt;
        NO_COMMITS.iter().position(|row| !is_no_commit(alloc, row)),
        None
    );
    assert_eq!(rt; TIMES.iter().position(|row| time_of(row.0) != row.1), None);
}

#[test]
fn says_of_trees_what_git_says(rt: HostRuntime) {
    let alloc = rt.alloc();
    assert!(rt; is_said_of_tree(alloc, ODD_TREE, ODD_TREE_LISTED));
    assert_eq!(rt;
        NO_TREES.iter().position(|row| !is_no_tree(alloc, row)),
        None
    );
}

#[test]
fn says_of_tags_what_git_says(rt: HostRuntime) {
    let alloc = rt.alloc();
    assert_eq!(rt;
        TAGS.iter()
            .position(|row| !is_said_of_tag(alloc, row.0, row.1)),
        None
    );
    assert_eq!(rt;
        NO_TAGS.iter().position(|row| look_tag(row).is_some()),
        None
    );
}
