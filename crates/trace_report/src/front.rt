//! The front of a report: what stands before its rows.

use crate::rules_style::RulesStyle;
use can_log::Id;
use shown_bytes::Name;
use text_parts::{Part, say};
use trace_io::TextSink;
use trace_text::Identifier;
use uds_rules::Rules;

/// What a page is made for: its style, the name of the log, the identifiers, the limit of the log, and the rules that
/// its messages are under.
#[derive(Clone, Copy)]
pub(crate) struct PageTitle<'a> {
    pub style: &'a str,
    pub name: &'a [u8],
    pub tester: Id,
    pub functional: Option<Id>,
    pub unit: Id,
    pub max_bytes: u64,
    pub rules: &'a Rules,
}

/// What stands before the rows of a report.
#[derive(Clone, Copy)]
pub(crate) struct Front<'a>(pub PageTitle<'a>);

impl<'a> Part for Front<'a> {
    ghost use Rattle.trace_report.specs.Front.{front_text};
    ghost use Rattle.trace_report.specs.proving.Pages.{title_of};

    ghost text = { λ front. front_text (title_of front.0) };

    fn say<S: TextSink>(self, out: &mut S) {
        let title = self.0;
        say(
            out,
            (
                PageHead(title),
                Shapes,
                Header(title),
                (
                    "<main id=\"session\">\n<h2>Session</h2>\n",
                    "<p class=\"filter\"><input type=\"checkbox\" id=\"only\"> <label for=\"only\">Show only what needs a look</label></p>\n",
                ),
            ),
        );
    }
}

/// The head of the page.
#[derive(Clone, Copy)]
struct PageHead<'a>(PageTitle<'a>);

impl<'a> Part for PageHead<'a> {
    ghost use Rattle.trace_report.specs.Front.{head_text};
    ghost use Rattle.trace_report.specs.proving.Pages.{title_of};

    ghost text = { λ head. head_text (title_of head.0) };

    fn say<S: TextSink>(self, out: &mut S) {
        let title = self.0;
        say(
            out,
            (
                DocumentFront,
                "<title>",
                Name(title.name),
                " - udsnorm report</title>\n<style>\n",
                title.style,
                RulesStyle(title.rules),
                "</style>\n</head>\n<body>\n",
            ),
        );
    }
}

/// The front of a page, up to its title: nothing may be fetched and nothing may run.
#[derive(Clone, Copy)]
pub struct DocumentFront;

impl Part for DocumentFront {
    ghost use Rattle.trace_report.specs.Front.{document_front};

    ghost text = { λ start. document_front };

    fn say<S: TextSink>(self, out: &mut S) {
        say(
            out,
            (
                "<!doctype html>\n<html lang=\"en\">\n<head>\n<meta charset=\"utf-8\">\n",
                "<meta name=\"viewport\" content=\"width=device-width, initial-scale=1\">\n",
                "<meta name=\"color-scheme\" content=\"light dark\">\n",
                "<meta http-equiv=\"Content-Security-Policy\" content=\"default-src 'none'; style-src 'unsafe-inline'; base-uri 'none'; form-action 'none'\">\n",
            ),
        );
    }
}

/// The shapes of the arrows.
#[derive(Clone, Copy)]
pub struct Shapes;

impl Part for Shapes {
    ghost use Rattle.trace_report.specs.Front.{shapes_text};

    ghost text = { λ shapes. shapes_text };

    fn say<S: TextSink>(self, out: &mut S) {
        say(
            out,
            (
                "<svg class=\"defs\" aria-hidden=\"true\"><defs>\n",
                "<g id=\"t\"><line class=\"l\" x2=\"100%\" y1=\"6\" y2=\"6\"/><svg x=\"100%\" overflow=\"visible\"><path class=\"h\" d=\"M0 6l-10-5v10z\"/></svg></g>\n",
                "<g id=\"u\"><line class=\"l\" x2=\"100%\" y1=\"6\" y2=\"6\"/><path class=\"h\" d=\"M0 6l10-5v10z\"/></g>\n",
                "<g id=\"tx\"><line class=\"l\" x2=\"60%\" y1=\"6\" y2=\"6\"/><svg x=\"60%\" overflow=\"visible\"><path class=\"k\" d=\"M-5 1l10 10m0-10l-10 10\"/></svg></g>\n",
                "<g id=\"ux\"><line class=\"l\" x1=\"40%\" x2=\"100%\" y1=\"6\" y2=\"6\"/><svg x=\"40%\" overflow=\"visible\"><path class=\"k\" d=\"M-5 1l10 10m0-10l-10 10\"/></svg></g>\n",
                "<g id=\"te\"><line class=\"l\" x2=\"60%\" y1=\"6\" y2=\"6\"/><svg x=\"60%\" overflow=\"visible\"><path class=\"k\" d=\"M1 0v12m5-12v12\"/></svg></g>\n",
                "<g id=\"ue\"><line class=\"l\" x1=\"40%\" x2=\"100%\" y1=\"6\" y2=\"6\"/><svg x=\"40%\" overflow=\"visible\"><path class=\"k\" d=\"M-1 0v12m-5-12v12\"/></svg></g>\n",
                "</defs></svg>\n",
            ),
        );
    }
}

/// What the page is about, above all else.
#[derive(Clone, Copy)]
struct Header<'a>(PageTitle<'a>);

impl<'a> Part for Header<'a> {
    ghost use Rattle.trace_report.specs.Front.{header_text};
    ghost use Rattle.trace_report.specs.proving.Pages.{title_of};

    ghost text = { λ header. header_text (title_of header.0) };

    fn say<S: TextSink>(self, out: &mut S) {
        let title = self.0;
        say(
            out,
            (
                "<div class=\"page\">\n<header>\n<p class=\"brand\">udsnorm report</p>\n<h1>",
                Name(title.name),
                "</h1>\n",
                Identifiers {
                    tester: title.tester,
                    functional: title.functional,
                    unit: title.unit,
                },
                "<p class=\"skip\"><a href=\"#verdict\">Verdict<span class=\"plain\">, at the end of this page</span></a> <a href=\"#session\">Session</a> <a href=\"#help\">How to read this page</a></p>\n",
                CutNotice,
            ),
        );
    }
}

/// The identifiers of both sides, and that on which the tester asks all units, where there is one.
#[derive(Clone, Copy)]
pub struct Identifiers {
    pub tester: Id,
    pub functional: Option<Id>,
    pub unit: Id,
}

impl Part for Identifiers {
    ghost use Rattle.trace_report.specs.Front.{identifiers_text};

    ghost text = { λ ids. identifiers_text ids.tester ids.functional ids.unit };

    fn say<S: TextSink>(self, out: &mut S) {
        let Identifiers {
            tester,
            functional,
            unit,
        } = self;
        say(
            out,
            (
                "<p class=\"ids\"><span class=\"T\">tester ",
                Identifier(tester),
                FunctionalIdentifier(functional),
                "</span> <span class=\"U\">unit ",
                Identifier(unit),
                "</span></p>\n",
            ),
        );
    }
}

/// The identifier on which the tester asks all units, behind its own, where there is one.
#[derive(Clone, Copy)]
struct FunctionalIdentifier(Option<Id>);

impl Part for FunctionalIdentifier {
    ghost use Rattle.trace_report.specs.Front.{functional_text};

    ghost text = { λ words. functional_text words.0 };

    fn say<S: TextSink>(self, out: &mut S) {
        match self.0 {
            Some(functional) => say(out, (", functional ", Identifier(functional))),
            None => {}
        }
    }
}

/// The notice of a page that breaks off, which the style shows where the end of the page is missing; and the end of the
/// header.
#[derive(Clone, Copy)]
struct CutNotice;

impl Part for CutNotice {
    ghost use Rattle.trace_report.specs.Front.{cut_notice};

    ghost text = { λ notice. cut_notice };

    fn say<S: TextSink>(self, out: &mut S) {
        say(
            out,
            "<p id=\"cut\" role=\"status\" hidden>This page has no end. What wrote it was stopped, or the file was cut, or the page is still loading: it tells nothing of the rest of the session.</p>\n</header>\n",
        );
    }
}
