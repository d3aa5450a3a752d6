//! Merges of many parts, beside a merge that keeps every row to the end.

use rank_merge::{Merged, merge};
use rank_papers::{Line, Row, certificate_of_best, read_certificate, read_report, report_of_rows};
use rank_query::Query;
use rank_scores::Candidate;
use std::alloc::Global;
use std::fmt::Write;
use std::test::Fail;

/// The merged report and certificate of parts, found the plain way: all rows are gathered, put in
/// order, and cut.
fn merge_plainly(alloc: Global, query: &Query, parts: &[(&[u8], &[u8])]) -> Result<Merged, Fail> {
    let mut rows: Vec<Row> = Vec::new(alloc);
    let mut lines: Vec<Line> = Vec::new(alloc);
    for (report, certificate) in parts {
        rows.append(&mut read_report(alloc, report)?.rows)?;
        lines.append(&mut read_certificate(alloc, certificate)?.lines)?;
    }
    lines.sort_by(|a, b| a.id.cmp(&b.id))?;
    rows.sort_by(|a, b| a.candidate.cmp(&b.candidate))?;
    rows.truncate(query.k() as usize);
    let best: Vec<Candidate> = rows.iter().map(|row| row.candidate).collect(alloc)?;
    Ok(Merged {
        report: report_of_rows(alloc, query, rows.as_slice())?,
        certificate: certificate_of_best(alloc, query, best.as_slice(), lines.as_slice())?,
    })
}

/// The report and the certificate of a part with one station of two digits, whose rows have these
/// scores, on days that follow one another.
fn part_of(alloc: Global, k: u64, station: u64, scores: &[u64]) -> Result<(String, String), Fail> {
    let mut report = format!(in alloc; "extremes report 1\nquery top {k} highest TMAX\n")?;
    for (place, score) in scores.iter().enumerate() {
        let (rank, day) = (place as u64 + 1, place as u64 % 20 + 10);
        let (degrees, tenths) = (*score / 10, *score % 10);
        write!(
            report,
            "{rank} ZZA000000{station} 2020-07-{day} 2020-07-{day} {degrees}.{tenths} C\n"
        )?;
    }
    let count = scores.len() as u64;
    let all = if count < k { " all" } else { "" };
    write!(report, "end {count}{all}\n")?;
    let mut certificate = format!(in alloc;
        "extremes certificate 2\nquery top {k} highest TMAX\n"
    )?;
    match scores.last() {
        Some(score) if count == k => write!(certificate, "kth {score}\n")?,
        _ => write!(certificate, "kth none\n")?,
    }
    write!(certificate, "scan ZZA000000{station} 999 {count}\nend 1\n")?;
    Ok((report, certificate))
}

/// Numbers that look random, each of the one before it.
fn next(state: u64) -> u64 {
    state
        .wrapping_mul(6_364_136_223_846_793_005)
        .wrapping_add(1_442_695_040_888_963_407)
}

/// The scores of up to that many rows, the highest first. There are few scores, so that parts tie.
fn scores_of(alloc: Global, most: u32, seed: u64) -> Result<Vec<u64>, Fail> {
    let mut state = next(seed);
    let count = (state >> 33) % (most as u64 + 1);
    let mut scores = Vec::new(alloc);
    for _ in 0..count {
        state = next(state);
        scores.push((state >> 33) % 25)?;
    }
    scores.sort_by(|a, b| b.cmp(a))?;
    Ok(scores)
}

/// The merged report and certificate, one after the other.
fn text_of(alloc: Global, merged: &Merged) -> Result<Vec<u8>, Fail> {
    let mut text = Vec::from_slice(alloc, &merged.report)?;
    text.extend_from_slice(&merged.certificate)?;
    Ok(text)
}

/// What is merged of parts with these scores, and what the plain form merges of them.
fn both_forms(alloc: Global, k: u32, scores: &[Vec<u64>]) -> Result<(Vec<u8>, Vec<u8>), Fail> {
    let query = format!(in alloc; "top {k} highest TMAX")?;
    let query = Query::parse(&query)?;
    let mut papers = Vec::new(alloc);
    for (place, scores) in scores.iter().enumerate() {
        papers.push(part_of(alloc, k as u64, place as u64 % 90 + 10, scores.as_slice())?)?;
    }
    let mut parts: Vec<(&[u8], &[u8])> = Vec::new(alloc);
    for (report, certificate) in papers.iter() {
        parts.push((report.as_bytes(), certificate.as_bytes()))?;
    }
    let merged = merge(alloc, &query, parts.as_slice())?;
    let plain = merge_plainly(alloc, &query, parts.as_slice())?;
    Ok((text_of(alloc, &merged)?, text_of(alloc, &plain)?))
}

/// The scores of that many parts, which have up to k rows each.
fn made(alloc: Global, k: u32, parts: u64, seed: u64) -> Result<Vec<Vec<u64>>, Fail> {
    let mut all = Vec::new(alloc);
    let mut state = seed;
    for _ in 0..parts {
        state = next(state);
        all.push(scores_of(alloc, k, state)?)?;
    }
    Ok(all)
}

#[test]
fn merges_as_the_plain_form(rt: HostRuntime) -> Result<(), Fail> {
    for seed in 0..4 {
        for k in 1..6 {
            for parts in 0..14 {
                let scores = made(rt.alloc(), k, parts, seed)?;
                let (found, plain) = both_forms(rt.alloc(), k, scores.as_slice())?;
                assert_eq!(rt; found, plain, "top {k} of {parts}, {seed}");
            }
        }
        for parts in [2, 3, 29] {
            let scores = made(rt.alloc(), 19, parts, seed)?;
            let (found, plain) = both_forms(rt.alloc(), 19, scores.as_slice())?;
            assert_eq!(rt; found, plain, "top 19 of {parts}, {seed}");
        }
    }
    Ok(())
}

#[test]
fn merges_at_each_threshold(rt: HostRuntime) -> Result<(), Fail> {
    // Of the three first: three rows, four, five, six and more, of equal scores, and rising.
    let cases: [&[&[u64]]; 9] = [
        &[&[250, 250, 250]],
        &[&[250, 250, 250], &[250]],
        &[&[250, 250, 250], &[250, 250]],
        &[&[250, 250, 250], &[250, 250, 250]],
        &[&[250, 250], &[251, 250], &[250, 250, 249]],
        &[&[250], &[250], &[250], &[250], &[250], &[250], &[250]],
        &[&[3, 2, 1], &[6, 5, 4], &[9, 8, 7], &[12, 11, 10]],
        &[&[9, 8, 7], &[6, 5, 4], &[3, 2, 1], &[7, 7, 7]],
        &[&[9, 9, 7], &[9, 9, 7], &[9, 9, 7], &[9, 9, 9], &[10]],
    ];
    for case in cases {
        let mut scores = Vec::new(rt.alloc());
        for part in case {
            scores.push(Vec::from_slice(rt.alloc(), part)?)?;
        }
        let (found, plain) = both_forms(rt.alloc(), 3, scores.as_slice())?;
        assert_eq!(rt; found, plain, "of {case:?}");
    }
    Ok(())
}
