/// The page, as page/index.html has it; page/embed writes this file.
pub const PAGE: &str = r##"<!doctype html>
<!-- The page of casa: no library, nothing from elsewhere. What tests may read of it (ids, classes, data-) stands in page/README.md. -->
<html lang="en">
<meta charset="utf-8">
<meta name="viewport" content="width=device-width,initial-scale=1">
<meta name="color-scheme" content="light dark">
<title>casa</title>
<style>
:root{--ink:#16212c;--soft:#43515e;--faint:#5e6c79;--line:#d3dbe2;--hair:#e8edf1;--back:#f3f5f8;--card:#fff;--hover:#f6f8fa;
 --issued:#174f8f;--on:#fff;--pre:#d3e5f7;--edge:#2f72b5;--plan:#d9e0e7;--grey:#8494a2;--forced:#6f7c88;--over:#bb3a00;
 --pick:#a65500;--pickback:#fff1da;--me:#ffc66b;--chosen:#e8f1fb;--ok:#1b7a45}
@media screen and (prefers-color-scheme:dark){:root{--ink:#e7edf3;--soft:#b9c5d0;--faint:#94a3b1;--line:#33414e;--hair:#27323c;--back:#0f151b;--card:#182129;--hover:#1f2a34;
 --issued:#6aa9f2;--on:#0c1a29;--pre:#1d3b5a;--edge:#7db6f5;--plan:#3a4753;--grey:#7f8d9a;--forced:#93a1ae;--over:#ff8653;
 --pick:#ffb85c;--pickback:#3a2d16;--me:#c07a17;--chosen:#1c3048;--ok:#4cc38a}}
*{box-sizing:border-box;margin:0}
body{background:var(--back);color:var(--ink);font:13px/1.4 Inter,"Segoe UI",system-ui,-apple-system,"Helvetica Neue",Arial,sans-serif;font-variant-numeric:tabular-nums;display:grid;grid-template-rows:auto minmax(0,1fr);height:100vh;overflow:hidden}
button,input,select{font:inherit;color:inherit}
ol,ul{list-style:none;padding:0}
h2{font-size:11px;letter-spacing:.06em;text-transform:uppercase;color:var(--faint);font-weight:600}
[hidden]{display:none!important}
.mono{font:11px/1.4 "DejaVu Sans Mono",ui-monospace,Menlo,Consolas,monospace;white-space:pre-wrap}
.unseen{position:absolute;width:1px;height:1px;overflow:hidden;clip-path:inset(50%);white-space:nowrap}
.hint{color:var(--faint);font-size:12px} .head .hint{white-space:nowrap} .pad{padding:0 14px 10px} .grow{flex:1} .num{text-align:right}
:focus-visible{outline:2px solid var(--edge);outline-offset:1px}
.reg:focus-visible,tr:focus-visible,.msg:focus-visible,.seg :focus-visible{outline-offset:-2px}
header{display:flex;align-items:center;flex-wrap:wrap;gap:4px 22px;padding:5px 18px;min-height:52px;background:var(--card);border-bottom:1px solid var(--line)}
.brand{font-size:17px}
.clock{font-size:22px;font-weight:600;white-space:nowrap} .clock small{font-size:12px;color:var(--faint);font-weight:500;margin-left:6px}
.fig{display:flex;flex-direction:column;line-height:1.2;white-space:nowrap} .fig b{font-size:15px;font-weight:600} .fig>span{font-size:11px;color:var(--faint)}
.find{width:210px;padding:6px 10px;border:1px solid var(--line);border-radius:7px;background:var(--back)}
.live{display:flex;align-items:center;gap:7px;font-size:12px;color:var(--soft);max-width:250px;line-height:1.25}
.dot{width:9px;height:9px;flex:none;border-radius:50%;background:var(--ok)}
.dot.off{border-radius:0;background:var(--over);transform:rotate(45deg)} .dot.rec{background:none;border:2px solid var(--faint)}
main{display:grid;grid-template-columns:304px minmax(0,1fr) 330px;gap:12px;padding:12px;min-height:0}
.away main{opacity:.5;filter:grayscale(1)}
.card{background:var(--card);border:1px solid var(--line);border-radius:10px;min-width:0;flex:none}
.col{display:flex;flex-direction:column;gap:12px;min-width:0;overflow-y:auto}
.tall{display:flex;flex-direction:column;flex:1;min-height:150px;overflow:hidden}
.head{display:flex;flex-wrap:wrap;align-items:center;justify-content:space-between;gap:6px 10px;padding:10px 14px 6px}
.head h2,.btn,.legend span{white-space:nowrap}
.scroll{overflow:auto;min-height:0;flex:1}
/* How a flight or a slot stands: each has a colour and a shape. */
.s-issued{background:var(--issued)}
.s-pre{background:var(--pre);box-shadow:inset 0 0 0 1.5px var(--edge)}
.s-forced{background:repeating-linear-gradient(45deg,transparent 0 2px,var(--forced) 2px 3px);box-shadow:inset 0 0 0 1px var(--forced)}
.s-over{background:repeating-linear-gradient(-45deg,var(--over) 0 3.5px,var(--card) 3.5px 4.3px)}
.s-free{border:1px dashed var(--grey)}
.s-plan{background:var(--plan);box-shadow:inset 0 0 0 .7px var(--grey)}
.kind{display:inline-flex;align-items:center;gap:6px} .kind i{width:10px;height:10px;border-radius:2px;flex:none}
.kind .s-over{background:var(--over);border-radius:0;clip-path:polygon(50% 0,100% 100%,0 100%)}
.bad{color:var(--over)} .bad::before{content:"▲ ";font-size:.75em;vertical-align:1px}
/* regulations */
.reg{display:grid;grid-template-columns:minmax(0,1fr) auto;gap:1px 10px;padding:4.5px 14px 5px 12px;border-left:3px solid transparent;cursor:pointer;border-top:1px solid var(--hair);content-visibility:auto;contain-intrinsic-height:46px}
.reg:hover,tbody tr:hover,.msg:hover,.offer:hover,.btn:hover{background:var(--hover)}
.reg.on{background:var(--chosen);border-left-color:var(--issued)}
.reg>div{white-space:nowrap;overflow:hidden;text-overflow:ellipsis}
.reg .id,.delay,.reg .bad{font-weight:600} .reg .loc,.reg .bad{font-size:12px;margin-left:7px} .reg .loc,.reg small,.when{color:var(--faint)}
.delay,.when{text-align:right} .reg small{font-weight:500} .when{font-size:11px}
.strip{width:auto;max-width:100%;height:14px;align-self:end;margin-bottom:2px}
.use{display:flex;gap:1px;height:9px;align-self:center} .use i{min-width:0;border-radius:1px}
/* the regulation */
.title{display:flex;align-items:center;flex-wrap:wrap;gap:4px 10px;padding:10px 14px 0 16px} .title div{display:flex;align-items:baseline;gap:10px;flex:1 1 320px;white-space:nowrap} .title b{font-size:18px} .title span{color:var(--soft)}
.rates{overflow:hidden;text-overflow:ellipsis}
.facts{display:flex;flex-wrap:wrap;gap:4px 24px;padding:8px 16px 10px;border-bottom:1px solid var(--hair)} .facts b{font-size:16px!important}
.seg{display:inline-flex;flex:none;border:1px solid var(--line);border-radius:7px;overflow:hidden}
.seg button{border:0;background:none;padding:3px 10px;font-size:12px;cursor:pointer;color:var(--soft);white-space:nowrap}
.btn{border:1px solid var(--line);background:var(--card);border-radius:7px;padding:4px 10px;font-size:12px;cursor:pointer}
.btn:disabled{opacity:.5;cursor:default}
.btn.go,.seg .on{background:var(--issued);color:var(--on);font-weight:600}
.legend{display:flex;gap:1px 8px;font-size:11px;color:var(--soft);flex-wrap:wrap}
.legend i{display:inline-block;width:11px;height:10px;margin-right:3px;border-radius:2px;vertical-align:-1px} .legend .kind i{margin:0} .legend .cap{height:2px;background:var(--ink);vertical-align:3px}
svg{display:block;width:100%;height:auto}
svg text{font-size:11px;fill:var(--faint)} svg .v{fill:var(--ink);paint-order:stroke;stroke:var(--card);stroke-width:3px;stroke-linejoin:round} svg .strong{fill:var(--ink);font-weight:600} svg .t-now{fill:var(--pick)}
.f-grid{stroke:var(--hair)} .f-hour{stroke:var(--line)} .f-later{fill:var(--back)} .f-now{stroke:var(--pick);stroke-dasharray:3 3}
.f-plan{fill:var(--plan);stroke:var(--grey);stroke-width:.7} .f-over{fill:var(--over)} .f-hatch{fill:url(#hatch)} .f-issued{fill:var(--issued)} .f-pre{fill:var(--pre);stroke:var(--edge)}
.f-forced{fill:url(#forced);stroke:var(--forced);stroke-width:.7} .f-free{fill:none;stroke:var(--line)} .f-me{fill:var(--me);stroke:var(--pick);stroke-width:1.6}
.f-cap,.f-new{fill:none;stroke:var(--ink);stroke-width:1.8} .f-new{stroke:var(--pick);stroke-width:2;stroke-dasharray:5 3}
.l{fill:none;cursor:pointer} .l-issued{stroke:var(--issued);opacity:.65} .l-pre{stroke:var(--edge);stroke-dasharray:6 2} .l-over{stroke:var(--over);stroke-width:1.5} .l-forced{stroke:var(--forced);stroke-width:.8;stroke-dasharray:1.5 2.5}
.l-me,.l[data-key]:hover{stroke:var(--pick);stroke-width:2.6;opacity:1;stroke-dasharray:none} .c-me{fill:var(--pick)}
.p-hatch{stroke:var(--card);opacity:.6} .p-forced{stroke:var(--forced);stroke-width:1.4} .p-back{fill:var(--card)}
/* list */
#list{container-type:inline-size}
table{border-collapse:collapse;width:100%;--bar:110px}
th{position:sticky;top:0;background:var(--card);text-align:left;font-size:11px;color:var(--faint);font-weight:500;height:26px;padding:0 9px;box-shadow:inset 0 -1px var(--line);z-index:1}
td{height:25px;padding:0 9px;border-bottom:1px solid var(--hair);white-space:nowrap} td b,.msg b,.times b{font-weight:600} .gap{padding:0;border:0} th.num{text-align:right}
tbody tr{cursor:pointer} tr.pick{background:var(--pickback)!important;box-shadow:inset 3px 0 var(--pick)} .free td,.out td{color:var(--soft)}
.bar{display:inline-block;height:8px;border-radius:2px;vertical-align:-.5px;margin-right:7px}
@container (max-width:760px){table{--bar:58px} th,td{padding:0 7px}}
@container (max-width:680px){.c-win{display:none}}
@container (max-width:540px){table{--bar:24px} th,td{padding:0 4px}}
/* flight */
.flight{padding:12px 16px 4px} .key{font-size:20px;font-weight:700}
.tag{display:inline-block;border-radius:5px;padding:1px 7px;font-size:11px;font-weight:600;margin-left:8px;vertical-align:3px}
.tag.issued{background:var(--issued);color:var(--on)} .tag.pre{background:var(--pre);box-shadow:inset 0 0 0 1px var(--edge)} .tag.none{border:1px dashed var(--grey)}
.times{display:grid;grid-template-columns:repeat(4,1fr);gap:4px;margin:9px 0 2px} .times div{border-left:2px solid var(--hair);padding-left:8px;white-space:nowrap}
.times span{display:block;font-size:11px;color:var(--faint)} .times b{font-size:15px} .late{color:var(--pick)}
.way{margin:7px 0 8px} .way b{color:var(--ink)}
.why{padding:8px 16px 10px;border-top:1px solid var(--hair)} .why h2{margin-bottom:5px} .why p{margin:4px 0}
.offer{display:grid;grid-template-columns:92px minmax(0,1fr) 62px;gap:6px;font-size:12px;padding:1.5px 0;cursor:pointer;border:0;background:none;width:100%;text-align:left} .offer.on{font-weight:600}
.queue{display:flex;flex-wrap:wrap;gap:2px;margin-top:5px} .queue i{width:11px;height:15px;border-radius:2px;cursor:pointer} .queue .me{background:var(--me);box-shadow:inset 0 0 0 2px var(--pick)}
.acts{display:flex;gap:5px;flex-wrap:wrap} .acts .btn{padding:4px 7px}
/* a command */
#desk{border-color:var(--edge);box-shadow:0 0 0 1px var(--edge)} #form,#reply{padding:0 14px 10px} #desk .head{padding:10px 0 6px}
.line{margin:3px 0 8px;padding:6px 9px;border-radius:7px;background:var(--back);border:1px solid var(--hair);color:var(--soft);overflow-wrap:anywhere}
#fields p{margin-bottom:7px} #fields label{display:grid;grid-template-columns:86px minmax(0,1fr);align-items:center;gap:8px;margin-bottom:5px}
#fields input,#fields select{border:1px solid var(--line);border-radius:6px;background:var(--back);padding:3px 7px;width:100%;min-width:0} #fields input{text-transform:uppercase}
#fields [readonly]{border-color:transparent;background:none} #fields [aria-invalid]{border-color:var(--over);box-shadow:inset 4px 0 var(--over)}
.period{display:grid;grid-template-columns:1fr 1fr 1fr 26px 26px;gap:4px;margin-bottom:4px;font-size:12px} .period .btn{padding:2px 0} .period span{white-space:nowrap;color:var(--faint)}
#wrong{color:var(--over);margin:2px 0 6px}
#forecast{margin-top:9px;padding-left:9px;border-left:3px solid var(--pick)} #forecast .head{padding-top:0} #forecast ul{margin-bottom:6px;font-size:12px} #forecast .offer{grid-template-columns:76px minmax(0,1fr) 58px}
#reply-words,.words{margin:2px 0 6px;font-weight:600} .no::before{content:"✕ ";color:var(--over)} .yes::before{content:"✓ ";color:var(--ok)} #reply-msgs{margin-bottom:6px;font-size:12px}
/* messages */
.msg{display:grid;grid-template-columns:36px 32px 84px 40px minmax(0,1fr);gap:7px;align-items:baseline;padding:3.5px 14px;white-space:nowrap;border-top:1px solid var(--hair);font-size:12px;cursor:pointer}
.msg .hint{text-align:right} .msg *,.offer *,.title div,#form-title,td:last-child{overflow:hidden;text-overflow:ellipsis} td:last-child{max-width:170px} .t{color:var(--faint)} .SAM,.SRM,.SLC{font-weight:600} .SAM{color:var(--issued)} .SRM{color:var(--pick)}
.quiet{border:0;background:none;font-size:12px;padding:0;field-sizing:content} option{background:var(--card);color:var(--ink)}
@media (max-width:1180px){body{display:block;height:auto;overflow:auto} main{grid-template-columns:264px minmax(0,1fr);align-items:start} .col{overflow:visible}
 #c-flight{grid-column:1/3;display:grid;grid-template-columns:1fr 1fr;align-items:start} #regs,#list,#msgs{max-height:560px}}
@media (max-width:680px){main,#c-flight{display:flex;flex-direction:column;align-items:stretch}}
@media print{body,main,.col,.tall,.scroll{display:block;height:auto;overflow:visible;max-height:none!important;padding:0} .card{border:0;margin-bottom:14px} .away main{opacity:1;filter:none}
 #search,#desk,.btn,.seg,.acts,select,.dot{display:none} #regs,#msgs{columns:2} .reg,.fig,svg,tr,.msg,.why{break-inside:avoid} th{position:static} #list{container-type:normal}
 *{-webkit-print-color-adjust:exact;print-color-adjust:exact}}
</style>
<body>
<svg id="shapes" width="0" height="0" style="position:absolute;width:0" aria-hidden="true"><defs>
  <pattern id="hatch" width="4" height="4" patternUnits="userSpaceOnUse" patternTransform="rotate(45)"><path class="p-hatch" d="M0 0V4"/></pattern>
  <pattern id="forced" width="4" height="4" patternUnits="userSpaceOnUse" patternTransform="rotate(45)"><rect class="p-back" width="4" height="4"/><path class="p-forced" d="M0 0V4"/></pattern>
</defs></svg>
<header>
  <h1 class="brand">casa</h1>
  <span class="clock" id="clock"></span>
  <div class="fig"><b id="f-delay"></b><span>delay of all flights</span></div>
  <div class="fig"><b id="f-gov"></b><span>governed, issued</span></div>
  <div class="fig"><b id="f-mean"></b><span>mean, longest</span></div>
  <div class="fig"><b id="f-over"></b><span>without a slot</span></div>
  <span class="grow"></span>
  <form id="search" role="search"><input class="find" id="find" placeholder="Find a flight, as KLM1234  ( / )" list="keys" autocomplete="off" spellcheck="false" aria-label="Find a flight or a regulation" aria-keyshortcuts="/"><datalist id="keys"></datalist></form>
  <span class="live"><i class="dot" id="dot"></i><span id="live"></span></span>
  <span class="unseen" id="said" role="status"></span>
</header>
<main>
  <section class="col" id="c-regs" aria-label="Regulations">
    <div class="card tall"><div class="head"><h2>Regulations</h2><span class="hint"><span id="r-count"></span> <select class="quiet" id="r-sort" aria-label="Order of the regulations"><option value="delay">by delay</option><option value="over">by no slot left</option><option value="governed">by flights</option><option value="">by name</option></select></span></div>
    <div class="pad" id="r-acts" hidden><button class="btn" data-act="open">Open a regulation…</button></div>
    <ul class="scroll" id="regs" role="listbox" aria-label="Regulations"></ul></div>
  </section>
  <section class="col" id="c-reg" aria-label="The regulation">
    <div class="card" id="one"></div>
    <div class="card" id="slope"></div>
    <div class="card tall"><div class="head"><h2>Slot list</h2><div class="legend" id="l-legend"></div></div><div class="scroll" id="list"></div></div>
  </section>
  <section class="col" id="c-flight" aria-label="The flight">
    <div class="card" id="desk" hidden>
      <form id="form" novalidate hidden>
        <div class="head"><h2 id="form-title"></h2><button type="button" class="btn" data-act="back">Back (Esc)</button></div>
        <div id="fields"></div>
        <div id="wrong" role="alert"></div>
        <div id="sending"><p class="hint">This line is sent, as any desk would:</p><pre class="line mono" id="line"></pre></div>
        <div class="acts"><button class="btn go" id="send">Send</button><button type="button" class="btn" id="try" title="shows what would come of it">Try</button></div>
        <div id="forecast" hidden></div>
      </form>
      <div id="reply" hidden>
        <div class="head"><h2>Reply</h2><button class="btn" data-act="back">Done (Esc)</button></div>
        <p id="reply-words"></p><ul id="reply-msgs"></ul>
        <p class="hint">The line that was sent:</p><pre class="line mono" id="reply-sent"></pre>
        <p class="hint">The reply, as it came:</p><pre class="line mono" id="reply-line"></pre>
      </div>
    </div>
    <div class="card" id="flight"></div>
    <div class="card tall"><div class="head"><h2>Messages</h2><span class="hint"><span id="m-count">new take-offs</span> <select class="quiet" id="m-show" aria-label="Which messages are shown"><option value="">of all</option><option value="reg">of the regulation</option><option value="key">of the flight</option></select></span></div>
    <ol class="scroll" id="msgs"></ol></div>
  </section>
</main>
<script>
"use strict";
const $=id=>document.getElementById(id);
/* An element, as h("b.bad",{title:"x"},"text"): what comes from data stands in it as text, and is never read as HTML. */
function put(node,classes,parts){if(classes.length)node.setAttribute("class",classes.join(" "));
 for(const p of parts.flat(9)){if(p==null||p===false)continue;
  if(typeof p!=="object"||p instanceof Node)node.append(p);else for(const k in p)if(p[k]!=null&&p[k]!==false)node.setAttribute(k,p[k])}
 return node}
const h=(name,...parts)=>{const[tag,...classes]=name.split(".");return put(document.createElement(tag),classes,parts)};
const v=(name,...parts)=>{const[tag,...classes]=name.split(".");return put(document.createElementNS($("shapes").namespaceURI,tag),classes,parts)};
/* Puts these in the place of what stands there; what had the focus has it again. */
function fill(id,...parts){const box=$(id),on=document.activeElement,d=box.contains(on)&&on.dataset,
  name=d&&["act","step","key","reg","slot"].find(k=>d[k]);
 box.replaceChildren();put(box,[],parts);
 const again=name&&box.querySelector(`[data-${name}="${d[name]}"]`);if(again)again.focus({preventScroll:true})}
const two=n=>String(n).padStart(2,"0"), hm=t=>t==null?"–":two(Math.floor(t/3600)%24)+":"+two(Math.floor(t/60)%60), hms=t=>hm(t)+":"+two(t%60);
const mins=s=>s<60?(s?"<1":"0"):String(Math.round(s/60)), big=n=>n.toLocaleString("en").replace(/,/g,"\u2009"), minutes=s=>big(Math.round(s/60))+" min";
const several=(n,one)=>n+" "+one+(n===1?"":"s");
/* What is known: the state as casa tells it, lists, flights, messages; and what is picked. A row is [key, eto, cto, kind, slot]. */
const nothing=()=>({day:"",clock:0,n:0,regs:[],lists:{},flights:{},plans:{},reasons:{},messages:[],fresh:{}});
let S=nothing(), reg=null, key=null, step=20, live=false, preview=null;
const regOf=id=>S.regs.find(r=>r.reg===id), rowsOf=id=>S.lists[id]||[], rowOf=(id,k)=>rowsOf(id).find(q=>q[0]===k);
const span=r=>[r.periods[0].from,r.periods[r.periods.length-1].to];
/* Slots begin at from + floor(3600 j / rate). */
function slotsOf(periods){const out=[];
 for(const p of periods){const b=[];for(let j=0,t=p.from;p.rate&&t<p.to;t=p.from+Math.floor(++j*3600/p.rate))b.push(t);b.forEach((t,i)=>out.push([t,i+1<b.length?b[i+1]:p.to]))}
 return out}
/* The steps of a regulation, and what comes behind its end: planned and calculated flights, and slots. */
function steps(r,rows,size){const[a,b]=span(r),out=[],none=()=>({pre:0,issued:0,forced:0});
 for(let t=a;t<b;t+=size)out.push({a:t,b:Math.min(t+size,b),p:none(),c:none(),slots:0});
 out.push({a:b,b,p:none(),c:none(),slots:0,after:true});
 const at=t=>out[t>=b?out.length-1:Math.floor((t-a)/size)];
 for(const[,e,c,kind]of rows){at(e).p[kind]++;at(c).c[kind]++}
 for(const[t]of slotsOf(r.periods))at(t).slots++;
 return out}
const sum=o=>o.pre+o.issued+o.forced;
const bySlot=rows=>{const by={};for(const q of rows)if(q[4]!=null)(by[q[4]]=by[q[4]]||[]).push(q);return by};
const kindOf=q=>q[3]!=="forced"&&q[4]==null?"over":q[3];
const word={issued:"issued",pre:"pre-allocated",forced:"forced",over:"no slot left",free:"free"};
const kind=(k,more)=>h("span.kind",h("i.s-"+k),word[k]+(more||""));
function drawTop(){const total=k=>S.regs.reduce((n,r)=>n+r[k],0),d=total("delay"),g=total("governed"),i=total("issued"),o=total("over"),m=Math.max(0,...S.regs.map(r=>r.longest)),
  figure=(id,value,text)=>{$(id).textContent=text;$(id).dataset.value=value};
 fill("clock",hm(S.clock),h("small","UTC\u2002"+S.day));$("clock").dataset.value=S.clock;
 figure("f-delay",d,minutes(d));figure("f-gov",g+" "+i,big(g)+", "+big(i));figure("f-mean",Math.floor(d/(g||1))+" "+m,(g?(d/g/60).toFixed(1):"0")+", "+Math.round(m/60)+" min");
 figure("f-over",o,o);$("f-over").className=o?"bad":"";
 document.title=["casa",S.day,hm(S.clock),live?"live":"a kept record"].filter(Boolean).join(" ")}
/* Regulations: each with its demand by 20 minutes where its list stands in the page, and else with the use of its slots. */
function strip(r){const st=steps(r,rowsOf(r.reg),1200).slice(0,-1),w=Math.min(13,150/st.length),top=14/Math.max(1,...st.map(s=>sum(s.p))),
  bars=(of)=>st.map((s,i)=>{const[a,b]=of(s,sum(s.p));return b>a?`M${i*w} ${14-a*top}v${(a-b)*top}h${w-1.5}v${(b-a)*top}z`:""}).join(""),over=bars((s,p)=>[s.slots,p]);
 return v("svg.strip",{viewBox:`0 0 ${w*st.length} 14`,width:w*st.length,preserveAspectRatio:"none"},v("title","planned flights by 20 minutes; hatched above capacity"),v("path.f-plan",{d:bars((s,p)=>[0,Math.min(p,s.slots)])}),v("path.f-over",{d:over}),v("path.f-hatch",{d:over}))}
function use(r){const parts=[["issued",r.issued],["pre",r.governed-r.issued],["free",Math.max(0,r.slots-r.governed+r.over)]].filter(p=>p[1]);
 return h("div.use",{title:`${r.slots} slots; ${parts.map(p=>p[1]+" "+word[p[0]]).join(", ")}`},parts.map(([k,n])=>h("i.s-"+k,{style:`flex:${n} 0 0`})))}
function drawRegs(){const by=$("r-sort").value,all=[...S.regs].sort((x,y)=>by?y[by]-x[by]:0);
 $("r-count").textContent=all.length+" open";
 fill("regs",all.map(r=>{const data={};for(const k of["reg","delay","governed","issued","over","forced","longest"])data["data-"+k]=r[k];
  return h("li.reg",{role:"option",tabindex:-1,...data},h("div",h("span.id",r.reg),h("span.loc",r.loc),r.over>0&&h("span.bad",{title:"flights without a slot"},r.over)),
   h("div.delay",big(Math.round(r.delay/60))+" ",h("small","min")),live?use(r):strip(r),h("div.when",span(r).map(hm).join("–")+"\u2002"+r.governed+" fl."))}));markReg()}
function markReg(){const all=[...$("regs").children],shown=all.find(x=>x.dataset.reg===reg);
 for(const x of all){x.classList.toggle("on",x===shown);x.setAttribute("aria-selected",x===shown);x.tabIndex=x===(shown||all[0])?0:-1}}
/* The one that is shown: its figures, and its demand beside its capacity. */
function drawOne(){const r=regOf(reg);if(!r)return fill("one",h("p.hint.pad","No regulation is open."));
 const g=r.governed,slots=slotsOf(r.periods).length,rates=r.periods.map(p=>p.rate).join(" · ")+" flights an hour",
  fig=(name,value,text,label)=>h("div.fig",h("b",{"data-fig":name,"data-value":value,class:name==="over"&&value?"bad":null},text),h("span",label||name)),
  button=(act,text)=>h("button.btn",{"data-act":act},text);
 fill("one",h("div.title",h("div",h("b",reg),h("span",r.loc),h("span",span(r).map(hm).join("–")),h("span.rates",{title:rates},rates)),live&&h("p.acts",button("rates","New rates…"),button("swap","Exchange…"),button("close","Close…"))),
  h("div.facts",fig("delay",r.delay,minutes(r.delay)),fig("mean",Math.floor(r.delay/(g||1)),(g?(r.delay/g/60).toFixed(1):0)+" min"),fig("longest",r.longest,Math.round(r.longest/60)+" min"),
   fig("governed",g,g),fig("issued",r.issued,r.issued),fig("forced",r.forced,r.forced),fig("over",r.over,r.over,"without a slot"),fig("slots",slots,slots)),
  h("div.head",h("h2","Demand and capacity"),h("div.legend",[["s-plan","planned"],["s-over","above"],["s-issued","issued"],["s-pre","pre-allocated"],["s-forced","forced"],["cap","capacity"]].map(([k,t])=>h("span",h("i."+k),t))),
   h("div.seg",{role:"group","aria-label":"Steps"},[20,60].map(m=>h("button"+(step===m?".on":""),{"data-step":m,"aria-pressed":String(step===m)},m+" min")))),
  S.lists[reg]?demand(r,Math.max(420,$("one").clientWidth-2)):h("p.hint.pad","…"))}
function demand(r,W){const st=steps(r,rowsOf(reg),step*60),to=preview&&preview.reg===reg?steps(preview,[],step*60):[],[a,b]=span(r),n=st.length,
  H=Math.max(180,Math.min(250,innerHeight*.215)),L=34,T=14,B=26,w=(W-L-8)/n,pad=w*.1,bw=Math.max(1,w/2-pad-1),every=Math.ceil(46/w),
  top=Math.max(4,...st.map(s=>Math.max(sum(s.p),sum(s.c),s.slots)),...to.map(s=>s.slots))*1.08,y=u=>T+(H-T-B)*(1-u/top),tick=[1,2,5,10,20,50,100,200,500,1000,2000].find(t=>top/t<=6)||5e3,
  svg=v("svg",{viewBox:`0 0 ${W} ${H}`,role:"list","aria-label":`Planned and calculated flights beside slots by ${step} minutes`}),tips=[],
  text=(x,y,t,cls,anchor)=>v("text"+(cls||""),{x,y,"text-anchor":anchor||"middle"},t),
  bar=(cls,x,from,to)=>v("rect."+cls,{x,y:y(to),width:bw,height:y(from)-y(to)}),
  line=(list,cls)=>v("path."+cls,{d:list.filter(s=>!s.after).slice(0,n-1).map((s,i)=>(i?"L":"M")+(L+i*w)+" "+y(s.slots)+"h"+w).join("")});
 for(let u=0;u<=top;u+=tick)svg.append(v("path.f-grid",{d:`M${L} ${y(u)}H${W-8}`}),text(L-6,y(u)+4,u,"","end"));
 st.forEach((s,i)=>{const x=L+i*w,p=sum(s.p),c=sum(s.c),over=s.after?0:Math.max(0,p-s.slots),
   told=`${s.after?"later":hm(s.a)+"–"+hm(s.b)}: ${p} planned, ${s.slots} slots, ${c} calculated (${s.c.issued} issued, ${s.c.pre} pre-allocated, ${s.c.forced} forced)`,
   tip=(n,x)=>n&&w>=26&&tips.push(text(x,y(n)-4,n,".v"));
  let u=0;
  svg.append(v("g.step",{role:"listitem","aria-label":told,"data-from":s.a,"data-planned":p,"data-slots":s.slots,"data-calculated":c},v("title",told),v("rect"+(s.after?".f-later":""),{x,y:T,width:w,height:H-T-B,fill:"transparent"}),
   p>over&&bar("f-plan",x+pad,0,p-over),over>0&&[bar("f-over",x+pad,p-over,p),bar("f-hatch",x+pad,p-over,p)],
   ["issued","pre","forced"].map(k=>s.c[k]>0&&bar("f-"+k,x+pad+bw+2,u,u+=s.c[k]))));
  tip(p,x+pad+bw/2);tip(c,x+pad+bw*1.5+2);
  if(s.after)svg.append(text(Math.min(x+w/2,W-16),H-B+15,"later"));else if(i%every===0&&(n-1-i)*w>40)svg.append(text(x,H-B+15,hm(s.a)))});
 const now=L+(S.clock-a)/(step*60)*w;
 put(svg,[],[line(st,"f-cap"),to.length>0&&line(to,"f-new"),tips,S.clock>a&&S.clock<b&&[v("path.f-now",{d:`M${now} ${T}V${H-B}`}),text(now+4,T+4,"now",".t-now","start")]]);
 return svg}
/* A line for each flight, from its planned time to its calculated one; where there are very many, a path for each kind. */
const FEW=700;
function drawSlope(){const r=S.lists[reg]&&regOf(reg);if(!r)return fill("slope");
 const rows=rowsOf(reg),[a,b]=span(r),sl=slotsOf(r.periods),by=bySlot(rows),me=rowOf(reg,key),W=Math.max(420,$("slope").clientWidth-2),H=126,L=34,y0=22,y1=88,R=8+(W-42)/steps(r,[],step*60).length,
  x=t=>L+(Math.min(t,b+600)-a)/(b-a)*(W-L-R),svg=v("svg",{viewBox:`0 0 ${W} ${H}`,role:"img","aria-label":"Each flight from its planned time over to its slot"}),
  way=q=>`M${x(q[1])} ${y0}L${x(q[2])} ${y1}`,wide=s=>Math.max(1.2,x(s[1])-x(s[0])-1),slot=s=>`M${x(s[0])} ${y1}h${wide(s)}v13h-${wide(s)}z`,
  line=(q,k)=>v("path.l.l-"+k,{"data-key":q[0],d:way(q)},v("title",`${q[0]} ${hm(q[1])} → ${hm(q[2])}, ${mins(q[2]-q[1])} min`)),
  text=(x,y,t,more)=>v("text",{x,y,"text-anchor":"middle",...more},t),held=i=>by[i]?by[i].some(q=>q[3]==="issued")?"issued":"pre":"free",hour=b-a>36000?7200:3600,ev=b-a>28800?3600:1200;
 for(let t=Math.ceil(a/ev)*ev;t<=b;t+=ev)put(svg,[],[v(t%hour?"path.f-grid":"path.f-hour",{d:`M${x(t)} ${y0-6}V${y1+20}`}),t%hour===0&&text(x(t),y1+33,hm(t))]);
 for(const k of["forced","pre","issued","over"]){const some=rows.filter(q=>kindOf(q)===k&&q!==me);put(svg,[],rows.length>FEW?[v("path.l.l-"+k,{d:some.map(way).join("")})]:some.map(q=>line(q,k)))}
 if(sl.length>FEW)for(const k of["issued","pre","free"])svg.append(v("path.f-"+k,{d:sl.filter((s,i)=>held(i)===k).map(slot).join("")}));
 else svg.append(...sl.map((s,i)=>v("path.f-"+held(i),{d:slot(s)},v("title",hms(s[0])+" "+(by[i]?by[i].map(q=>q[0]).join(", "):"free")))));
 if(me)put(svg,[],[line(me,"me"),v("circle.c-me",{cx:x(me[1]),cy:y0,r:3.4}),me[4]!=null&&sl[me[4]]&&v("path.f-me",{d:slot(sl[me[4]])}),text(Math.min(Math.max(x(me[1]),L+58),W-76),y0-9,`${key} ${hm(me[1])} → ${hm(me[2])}`,{class:"strong"})]);
 svg.append(text(L-18,y0+4,"ETO"),text(L-18,y1+10,"CTO"));
 fill("slope",h("div.head",h("h2","From planned to calculated"),h("span.hint","the more a line leans, the longer the flight waits")),svg)}
/* The list, with the slots that are free. Of a long one only the rows on the screen are drawn. */
const ROW=25, LONG=1000;
let L={all:[]}, cur=0, whole=false;
function drawList(){const r=S.lists[reg]&&regOf(reg),rows=rowsOf(reg),by=bySlot(rows),all=[],now=reg+" "+key;
 if(!$("l-legend").firstChild)fill("l-legend",["issued","pre","forced","over","free"].map(k=>kind(k)));
 if(r)slotsOf(r.periods).forEach((s,i)=>{for(const q of by[i]||[null])all.push([s[0],i,s,q])});
 for(const q of rows)if(q[4]==null)all.push([q[2],-1,null,q]);
 all.sort((p,q)=>p[0]-q[0]||p[1]-q[1]);
 L={all,most:rows.reduce((m,q)=>Math.max(m,q[2]-q[1]),60)};
 const mine=all.findIndex(p=>p[3]&&p[3][0]===key),n=all.length;
 cur=within(mine<0?cur:mine,n);drawRows(true);
 if(n&&drawList.seen!==now){if(mine>=0)toRow(mine,true);else if(drawList.of!==reg)$("list").scrollTop=0;drawList.seen=now;drawList.of=reg}}
function drawRows(anew){const box=$("list"),n=L.all.length;let from=0,to=n;
 if(n>LONG&&!whole){const some=Math.ceil(box.clientHeight/ROW)+40;from=within(Math.floor(box.scrollTop/ROW)-20,n-some+1);to=from+some}
 if(!anew&&L.from===from&&L.to===to)return;
 L.from=from;L.to=to;
 const gap=k=>k>0&&h("tr",{"aria-hidden":"true"},h("td.gap",{colspan:7,style:`height:${k*ROW}px`})),th=name=>{const[tag,...cls]=name.split(".");return h("th",{scope:"col",class:cls.join(" ")||null},tag)};
 fill("list",n>0&&h("table",{role:"grid","aria-label":"Slot list of "+reg,"aria-rowcount":n+1},h("thead",h("tr",["Slot.num","Window.c-win","Flight","ETO.num","CTO.num","Delay","Stands"].map(th))),
  h("tbody",gap(from),L.all.slice(from,to).map((p,i)=>row(p,from+i)),gap(n-to))))}
function row([,i,s,q],at){const k=q?kindOf(q):"free",d=q&&q[2]-q[1],f=q&&S.flights[q[0]],mine=q&&q[0]===key,is={"data-i":at,"aria-rowindex":at+2,tabindex:at===cur?0:-1,"data-slot":i<0?"":i,"data-kind":q?q[3]:k,
   class:[mine&&"pick",i<0&&"out",!q&&"free"].filter(Boolean).join(" ")},
  cells=[h("td.num",i<0?"":i),h("td.c-win",s?hms(s[0])+"–"+hms(s[1]).slice(3):"")];
 if(!q)return h("tr",is,cells,h("td","–"),h("td"),h("td"),h("td"),h("td",kind(k)));
 return h("tr",is,{"data-key":q[0],"data-eto":q[1],"data-cto":q[2],"aria-selected":String(mine)},cells,h("td",h("b",q[0])),h("td.num",hms(q[1])),h("td.num",hms(q[2])),
  h("td",h("span.bar.s-"+k,{style:`width:calc(var(--bar)*${(d/L.most).toFixed(3)})`}),d?mins(d)+" min":"0"),h("td",kind(k,k==="forced"&&f&&f.etot!=null?" by "+(f.reg||"none"):"")))}
/* Goes to a row: it is seen, and has the focus. */
function toRow(i,quiet){cur=i;const box=$("list"),at=i*ROW,room=box.clientHeight-ROW-26;
 if(at<box.scrollTop||at>box.scrollTop+room)box.scrollTop=quiet?at-room/2:at<box.scrollTop?at:at-room;
 drawRows(!quiet);
 if(!quiet)box.querySelector(`[data-i="${i}"]`).focus({preventScroll:true})}
/* By which rule a flight is governed, or not. */
const rules={GreatestDelay:"it offers the greatest delay, as the most penalising one",SmallestId:"it offers the greatest delay, and others as much; its identifier is the smallest",
 SinceEntry:"since the flight entered; if it entered now, another one would",GovernedGone:"since the flight entered; it is gone now",
 Exempt:"the flight is exempt",Gone:"the flight is gone",Outside:"the flight is subject to no open regulation"};
/* The slots from the one that a flight asks for to its own, each as [begin, key, kind, eto]. */
function held(f){const told=S.reasons[f.key],q=rowOf(f.reg,f.key),out=[];
 if(told)return told.holdings.map(x=>[x.begin,x.key,x.kind,x.eto]);
 if(!q)return out;
 const sl=slotsOf(regOf(f.reg).periods),by=bySlot(rowsOf(f.reg)),last=q[4]==null?sl.length-1:q[4];
 for(let i=sl.findIndex(s=>s[1]>q[1]);i>=0&&i<=last;i++)for(const p of by[i]||[[]])out.push([sl[i][0],p[0],p[3],p[1]]);
 return out}
function why(f){const told=S.reasons[f.key];
 if(!f.reg)return h("p",`Nothing governs: ${told?rules[told.rule]:f.exempt?rules.Exempt:"no open regulation delays it"}.`);
 const slots=held(f),own=slots.find(s=>s[1]===f.key),before=slots.filter(s=>s!==own),count=k=>before.filter(s=>s[2]==k).length,pre=count("pre"),free=count(null);
 return[f.delay?h("p","It waits ",h("b",mins(f.delay)+" min")," by ",h("b",f.reg),`: of the ${several(before.length,"slot")} ${own?"before its own":"up to the end"} ${count("issued")} issued`,pre>0&&`, ${pre} pre-allocated to flights planned earlier`,
   free>0&&[", ",h("b",free+" free"),": a revise may get it an earlier one"],own?".":"; none is left for it."):h("p",h("b",f.reg)," governs, and it does not wait."),
  slots.length>1&&[h("div.queue",{role:"img","aria-label":"The slots from the one it asks for to its own"},slots.slice(-54).map(([t,k,kd,eto])=>h("i",{class:k===f.key?"me":k?"s-"+kd:"s-free","data-key":k===f.key?null:k,title:hms(t)+" "+(k?k+", planned "+hms(eto):"free")}))),
   h("p.hint",`${hm(slots[0][0])} the slot it asks for → ${own?hm(own[0])+" its own":"none left"}`)],
  told&&h("p.hint",`${f.reg} governs: ${rules[told.rule]}.`)]}
/* The exchanges that move a flight the least, in the order of its new time. */
const nearest=(f,told)=>[...told.exchanges].sort((p,q)=>Math.abs(p.ctot-f.ctot)-Math.abs(q.ctot-f.ctot)).slice(0,12).sort((p,q)=>p.ctot-q.ctot);
function drawFlight(){const f=S.flights[key],told=S.reasons[key],rows=[];
 if(!f||f.etot==null)return fill("flight",h("div.head",h("h2","Flight")),h("p.hint.pad",!key?"Pick a flight, or find one by its key.":f?key+" …":`No flight is filed under ${key}.`));
 for(const r of S.regs){const q=rowOf(r.reg,key);if(q)rows.push([r.reg,q])}
 rows.sort((p,q)=>(q[0]===f.reg)-(p[0]===f.reg)||p[1][1]-q[1][1]);
 const offers=told?told.offers.map(o=>[o.reg,"CTO "+hms(o.cto),mins(o.delay)+" min",o.delay]):rows.map(([r,q])=>[r,hms(q[1])+" → "+hms(q[2]),r===f.reg?"governs":"forced",q[2]-q[1]]),
  at=offers.map(o=>(regOf(o[0])||{}).loc),time=(name,value,text)=>h("div",h("span",name),h("b",{"data-fig":name,"data-value":value,class:name==="CTOT"&&f.delay?"late":null},text||hm(value)));
 fill("flight",h("div.flight",{"data-flight":key},h("h2.unseen","Flight"),h("span.key",key),h("span.tag."+(f.issued?"issued":f.reg?"pre":"none"),f.issued?"issued":f.reg?"pre-allocated":f.exempt?"exempt":"not governed"),
   h("div.times",time("EOBT",f.eobt),time("ETOT",f.etot),time("CTOT",f.ctot),time("delay",f.delay,mins(f.delay)+" min")),
   h("p.hint.way",(S.plans[key]||[]).map(([l,e],i)=>[i?" › ":"",h(at.includes(l)?"b":"span",l+" "+hm(e))]))),
  h("div.why",h("h2",f.delay?"Why it waits":"How it stands"),why(f)),
  offers.length>0&&h("div.why",h("h2",told?"What each regulation would offer it now":"Regulations on its way"),offers.map(([r,t,last,d])=>h("button.offer"+(r===f.reg?".on":""),{"data-reg":r,"data-value":d},h("span",r),h("span.num",t),h("span.num",last)))),
  live&&told&&told.exchanges.length>0&&h("div.why",{id:"exchanges","data-count":told.exchanges.length},h("h2","Exchange with "+several(told.exchanges.length,"flight")),
   nearest(f,told).map(x=>h("button.offer",{"data-act":"swap","data-reg":f.reg,"data-other":x.other,"data-ctot":x.ctot,"data-other-ctot":x.other_ctot},h("span",x.other),h("span.num","CTOT "+hm(x.ctot)),h("span.num",signed(x.ctot-f.ctot,mins(Math.abs(x.ctot-f.ctot)))+" min")))),
  h("div.why",h("h2","What to do"),live?h("div.acts",[["revise","Revise…"],["swap","Exchange…",!f.issued],["exempt","Exempt…",f.exempt],["cancel","Cancel…"]].map(([a,t,off])=>h("button.btn",{"data-act":a,"data-reg":a==="swap"?f.reg:null,disabled:off?"":null},t))):
   h("p.hint",{id:"kept"},"This is a kept record: it shows how things stood, and nothing can be sent from it.")))}
let many=120;
function drawMsgs(){const by=$("m-show").value,all=S.messages.filter(x=>!by||(by==="reg"?x.reg===reg:x.key===key)).reverse();
 fill("msgs",all.slice(0,many).map((x,i)=>h("li.msg",{tabindex:i?-1:0,"data-key":x.key,"data-at":x.at,"data-kind":x.kind,"data-ctot":x.ctot,title:"caused by desk "+x.desk},h("span.t",hm(x.at)),h("span."+x.kind,x.kind),h("b",x.key),h("span",hm(x.ctot)),h("span.hint",x.reg||""))),
  all.length>many&&h("li.pad",h("button.btn",{"data-act":"more"},"Older ones")),!all.length&&h("li.hint.pad","None."))}
function drawReg(){drawOne();drawSlope();drawList()}
function draw(){drawTop();drawRegs();drawReg();drawFlight();drawMsgs();$("r-acts").hidden=!live}
/* What is picked. */
function chooseReg(r){if(!regOf(r))return;reg=r;markReg();drawReg();if($("m-show").value)drawMsgs();if(live)ask()}
function pick(k){key=k;const f=S.flights[k];if(f&&regOf(f.reg)&&!rowOf(reg,k)){reg=f.reg;markReg()}
 drawReg();drawFlight();if($("m-show").value)drawMsgs();if(live)ask(k)}
function find(text){const k=text.trim().toUpperCase();if(!k)return;$("find").value="";if(regOf(k)&&!S.flights[k])chooseReg(k);else pick(k)}
const on=(id,event,what)=>(typeof id==="string"?$(id):id).addEventListener(event,what), within=(i,n)=>Math.max(0,Math.min(n-1,i));
on(document,"click",e=>{const t=e.target.closest("[data-key],[data-reg],[data-step],[data-act]"),d=t&&t.dataset;if(!t)return;
 if(d.step){step=+d.step;drawOne();drawSlope()}else if(d.act)act(d.act,d.reg,d.other);else if(d.key)pick(d.key);else chooseReg(d.reg)});
on("search","submit",e=>{e.preventDefault();find($("find").value)});
on("find","change",e=>{const k=e.target.value.trim().toUpperCase();if(S.flights[k]||regOf(k))find(k)});
on("find","input",e=>{const t=e.target.value.trim().toUpperCase(),near=[];if(t)for(const k of[...S.regs.map(r=>r.reg),...Object.keys(S.flights)])if(k.startsWith(t)&&near.push(k)>19)break;
 fill("keys",near.map(k=>h("option",{value:k})))});
on("r-sort","change",drawRegs);on("m-show","change",()=>{many=120;drawMsgs()});on("list","scroll",()=>drawRows());
const MOVES={ArrowDown:1,ArrowUp:-1,PageDown:10,PageUp:-10,Home:-1e9,End:1e9};
for(const id of["regs","msgs"])on(id,"keydown",e=>{const d=MOVES[e.key],all=[...$(id).querySelectorAll("[tabindex]")],i=all.indexOf(e.target);if(!d||i<0)return;
 e.preventDefault();const to=all[within(i+d,all.length)];e.target.tabIndex=-1;to.tabIndex=0;to.focus()});
on("list","keydown",e=>{const d=MOVES[e.key],tr=e.target.closest("[data-i]");if(d&&tr){e.preventDefault();toRow(within(+tr.dataset.i+d,L.all.length))}});
on(document,"keydown",e=>{const t=document.activeElement;
 if((e.key==="Enter"||e.key===" ")&&t.matches("li[data-reg],li[data-key],tr[data-key]")){e.preventDefault();t.click()}
 else if(e.key==="/"&&!t.matches("input,select")&&!e.ctrlKey){e.preventDefault();$("find").focus()}
 else if(e.key==="Escape"){if(t===$("find")){t.value="";t.blur()}else if(!$("desk").hidden)back()}});
let later;on(window,"resize",()=>{clearTimeout(later);later=setTimeout(drawReg,80)});
on(window,"beforeprint",()=>{whole=true;drawRows(true)});on(window,"afterprint",()=>{whole=false;drawRows(true)});
/* Commands. A form shows the line that its button sends; then the reply stands in its place. */
let form=null;
const clock=t=>two(Math.floor(t/3600))+hm(t).slice(2)+(t%60?":"+two(t%60):"");
const seconds=text=>{const m=/^(\d{1,2}):?([0-5]\d)(?::([0-5]\d))?$/.exec(text.trim());return m?m[1]*3600+m[2]*60+ +(m[3]||0):NaN};
const signed=(d,t)=>(d<0?"−":d?"+":"")+t;
const shift=d=>d?mins(Math.abs(d))+" min "+(d<0?"earlier":"later"):"at the same time";
const does={open:["Open","Flights over the location in this time that nothing governs get a slot there."],
 rates:["Give new rates","Issued times stay; all others are placed anew. The end may come later, and that is for good. The dashed line shows the new capacity."],
 close:["Close","Its flights lose their slots and look for one in the other regulations on their way. Operators get an SRM or an SLC."],
 swap:["Exchange","Each of the two gets the other's time over, and nobody else moves."],
 revise:["Revise","It looks for a slot anew. An issued flight keeps its own where it gets no earlier one."],
 exempt:["Exempt","No regulation delays it any more. Where it was issued, its operator gets an SLC."],
 cancel:["Cancel","Its plan is removed, and its slot is free. No message goes out."]};
const field=n=>$("form").elements[n];
async function act(a,of,other){if(a==="more"){many+=120;return drawMsgs()}
 if(a==="back")return back();
 const r=of||reg;form={act:a,key,reg:r,other,rows:[],from:document.activeElement};
 if(a==="rates")form.rows=regOf(r).periods.map(p=>[clock(p.from),clock(p.to),p.rate]);
 if(a==="open"){const t=Math.ceil(S.clock/3600)*3600+7200;form.rows=[[clock(t),clock(t+7200),30]]}
 if(a==="swap"&&!S.lists[r])try{takeList(await get("/list?"+r))}catch(e){}
 $("form-title").textContent=does[a][0]+({open:" a regulation",rates:" to "+r,close:" "+r,swap:" in "+r}[a]||" "+key);
 $("send").textContent=does[a][0];drawFields();$("desk").hidden=$("form").hidden=false;$("reply").hidden=true;$("c-flight").scrollTop=0;check();
 ($("fields").querySelector("input:not([readonly]),select")||$("send")).focus()}
function drawFields(){const f=form,fixed=f.act==="rates",input=(name,value,label,more)=>h("input",{name,value,"aria-label":label,autocomplete:"off",spellcheck:"false"},more),
  label=(text,node)=>h("label",text,node),small=(text,label,act,i,off)=>h("button.btn",{type:"button","aria-label":label,"data-row":act,"data-at":i,disabled:off?"":null},text);
 fill("fields",h("p.hint",does[f.act][1]),f.act==="open"&&[label("Regulation",input("reg","","Regulation")),label("Location",input("loc","","Location"))],
  f.rows.length>0&&[h("div.period",["from","to","flights an hour"].map(t=>h("span",t))),f.rows.map((p,i)=>h("div.period",{role:"group","aria-label":"period "+(i+1)},
   input("from"+i,p[0],"from",i||fixed?{readonly:"",tabindex:-1}:{}),input("to"+i,p[1],"to"),input("rate"+i,p[2],"flights an hour",{inputmode:"numeric"}),small("+","divide this period","add",i,f.rows.length>23),small("−","remove this period","drop",i,f.rows.length<2)))],
  f.act==="swap"&&[label("Flight",h("select",{name:"key"},issuedIn(f.reg).map(q=>h("option",{value:q[0],selected:q[0]===f.key?"":null},q[0]+", "+hm(q[2]))))),label("with",h("select",{name:"other"})),h("p.hint",{id:"exchange"})]);
 if(f.act==="swap")partners()}
const issuedIn=id=>rowsOf(id).filter(q=>q[3]==="issued");
/* The flights with which one can be exchanged, as casa tells them; of a flight that is not picked those where neither would come before its own time. */
function partners(){const all=issuedIn(form.reg),k=field("key").value,one=all.find(q=>q[0]===k),told=S.reasons[k],
  may=told&&S.fresh["flight "+k]>=S.n?new Set(told.exchanges.map(x=>x.other)):null;
 field("other").replaceChildren(...all.filter(q=>one&&q!==one&&(may?may.has(q[0]):q[2]>=one[1]&&one[2]>=q[1])).map(q=>h("option",{value:q[0]},`${q[0]}, ${hm(q[2])}: ${shift(q[2]-one[2])}`)));
 if([...field("other").options].some(o=>o.value===form.other))field("other").value=form.other}
/* Looks at what stands in the form: shows the line, or what is wrong. */
function check(){const f=form,wrong=[],bad=(n,text)=>wrong.push([n,text]),c={cmd:f.act},time="A time is HH:MM, up to 47:59 on the second day.",text=n=>field(n).value.trim().toUpperCase(),
  name=(n,label)=>{const t=text(n);if(!/^[A-Z0-9]{1,10}$/.test(t))bad(n,t&&label+" has 1 to 10 characters of A to Z and 0 to 9.");return t};
 if(f.act==="open"){c.reg=name("reg","A regulation");c.loc=name("loc","A location");if(regOf(c.reg))bad("reg",c.reg+" is open already.")}
 else if(f.act==="rates"||f.act==="close")c.reg=f.reg;
 else c.key=f.key;
 if(f.act==="swap"){c.key=field("key").value;c.other=field("other").value;const[a,b]=[c.key,c.other].map(k=>rowOf(f.reg,k)),one=(p,q)=>`${p[0]} ${hm(p[2])} → ${hm(q[2])}, ${shift(q[2]-p[2])}`;
  $("exchange").textContent=a&&b?one(a,b)+"; "+one(b,a)+".":"";if(!a||!b)bad("other","No other issued flight can take its time and give its own.")}
 if(f.rows.length){let from=seconds(text("from0"));if(!(from<172800))bad("from0",time);
  c.periods=f.rows.map((p,i)=>{const to=seconds(text("to"+i)),rate=text("rate"+i),was=from;if(i)field("from"+i).value=field("to"+(i-1)).value;
   if(!(to<172800))bad("to"+i,time);else if(to<=from)bad("to"+i,"A period ends after it begins.");
   if(!/^\d{1,3}$/.test(rate)||+rate>600)bad("rate"+i,"A rate is a whole number from 0 to 600 flights an hour.");
   from=to;return{from:was,to,rate:+rate}});
  const last="to"+(f.rows.length-1),[a,b]=span(c),r=f.act==="rates"&&regOf(f.reg);if(b-a>86400)bad(last,"A regulation lasts 24 hours at most.");
  if(r&&b<span(r)[1])bad(last,"It can't end before "+clock(span(r)[1])+", as it does now.")}
 for(const e of $("form").elements)e.removeAttribute("aria-invalid");
 for(const[n,t]of wrong)if(t)field(n).setAttribute("aria-invalid","true");
 const texts=[...new Set(wrong.map(w=>w[1]))].filter(Boolean).join(" ");if($("wrong").textContent!==texts)$("wrong").textContent=texts;
 f.line=wrong.length?"":JSON.stringify(c);$("line").textContent=f.line||"–";$("try").disabled=$("send").disabled=!f.line||!!lost||f.busy;
 if(f.tried!==f.line)$("forecast").hidden=true;
 show(f.act==="rates"&&f.line?{reg:f.reg,periods:c.periods}:null)}
/* Shows in the picture what capacity these periods give. */
function show(periods){const was=JSON.stringify(preview);preview=periods;if(JSON.stringify(preview)!==was)drawOne()}
function back(){const t=form&&form.from;$("desk").hidden=true;form=null;show(null);
 const again=t&&(t.isConnected?t:t.dataset.act&&[...document.querySelectorAll(`[data-act="${t.dataset.act}"]`)].pop());if(again)again.focus()}
on("fields","input",e=>{if(e.target.name==="key")partners();check()});
on("fields","click",e=>{const t=e.target.closest("[data-row]");if(!t)return;const i=+t.dataset.at,rows=form.rows=form.rows.map((p,j)=>["from","to","rate"].map(n=>field(n+j).value)),p=rows[i],open=form.act==="open"&&["reg","loc"].map(n=>[n,field(n).value]);
 if(t.dataset.row==="drop"){rows.splice(i,1);if(rows[i])rows[i][0]=p[0]}
 else{const a=seconds(p[0]),b=seconds(p[1]),mid=b-a>600?clock(Math.round((a+b)/600)*300):"";rows.splice(i,1,[p[0],mid,p[2]],[mid,p[1],p[2]])}
 drawFields();for(const[n,t]of open||[])field(n).value=t;check();field("to"+Math.min(i,rows.length-1)).focus()});
on("form","submit",e=>{e.preventDefault();if(form&&!$("send").disabled)send()});
const refusals={Duplicate:"a flight is filed under this key",NoFlight:"no such flight is filed",Late:"the off-block time is before the clock",AlreadyExempt:"the flight is exempt already",
 DuplicateRegulation:"a regulation is open under this identifier",NoRegulation:"no regulation is open under this identifier",TooManyRegulations:"256 regulations are open",
 SpanChanged:"the periods begin at another time than the regulation, or end before it",BackInTime:"the time is before the clock",NotIssued:"one of the two has no issued slot",
 OtherRegulation:"different regulations govern the two",TooEarly:"one of the two would be over the location before its own estimated time, or take off before the clock"};
/* A reply in words; "was" is the flight as it stood before, and "n" the call that it is, or none where it was tried. */
function inWords(t,was,n){const f=t.flight,call=n?` (call ${n})`:"";
 if(t.fault)return`The line is no call (${[t.fault,t.field].filter(Boolean).join(" ")}): nothing was changed.`;
 if(t.refused)return(n?"Refused: ":"It would be refused: ")+`${refusals[t.refused]||"for a reason of its own"} (${t.code} ${t.refused}${n?`, call ${n}). Nothing was changed.`:")."}`;
 return f?`${f.key} ${n?"takes":"would take"} off at ${hm(f.ctot)}, ${was&&was.ctot!=null&&was.ctot!==f.ctot?shift(f.ctot-was.ctot):"as before"}; ${f.reg?`${f.delay?mins(f.delay)+" min of delay":"no delay"} by ${f.reg}`:f.exempt?"it is exempt":"nothing governs it"}${call}.`:n?`Done, as call ${n}.`:"It would be accepted."}
const told=(msgs=[])=>[msgs.slice(0,12).map(m=>h("li",h("span."+m.kind,m.kind)," ",h("b",m.key),m.ctot==null?": no slot needed":": take-off "+hm(m.ctot))),msgs.length>12&&h("li",`and ${several(msgs.length-12,"more message")}`)];
const post=(path,body)=>fetch(path,{method:"POST",body,signal:AbortSignal.timeout(20000)});
async function send(){const f=form,was=S.flights[f.key],unknown="Whether the call stands is not known: look before you send it again.";let text="",words,t={};f.busy=true;check();
 try{const r=await post("/lines",f.line+"\n");text=(await r.text()).trim();
  if(r.ok){t=JSON.parse(text);words=inWords(t,was,t.n)}else words=r.status===503?"The server had no memory for the reply (503). "+unknown:`The server did not take the line (${r.status}): nothing was changed.`}
 catch(e){words="No reply came. "+unknown}
 const done=t.done||t.flight;f.busy=false;
 say(words);$("reply-words").textContent=words;$("reply-words").className=done?"yes":"no";$("reply-sent").textContent=f.line;$("reply-line").textContent=text||"–";
 fill("reply-msgs",told(t.msgs));
 $("desk").hidden=$("reply").hidden=false;
 if(form===f&&!done)check();else if(form===f||!form){$("form").hidden=true;form={from:f.from};show(null);$("reply").querySelector("button").focus()}
 try{await busy}catch(e){}
 look().catch(()=>{})}
/* What would come of a form's line: it is tried, not sent; then again between the lists of regulations that would change, one try
   after the other. */
let turn=Promise.resolve();
async function tryLines(lines){const r=await post("/try",lines.join("\n"));if(!r.ok)throw r.status;
 const all=(await r.text()).trim().split("\n").map(t=>JSON.parse(t));return{...all.pop(),replies:all}}
/* What differs, as [name, before, after, more delay]. */
const none={reg:"",delay:0}, differ=(a,b)=>[...new Map([...a,...b]).keys()].map(k=>[k,a.get(k)||none,b.get(k)||none]).filter(([,x,y])=>JSON.stringify(x)!==JSON.stringify(y))
 .map(([k,x,y])=>[k,x,y,y.delay-x.delay]).sort((p,q)=>Math.abs(q[3])-Math.abs(p[3]));
const FIGS="delay governed issued over forced longest slots".split(" "), totals=s=>Object.fromEntries(FIGS.slice(0,4).map(k=>[k,s.regs.reduce((n,r)=>n+r[k],0)]));
async function forecast(f,line){const gone=()=>form!==f||f.line!==line,c=JSON.parse(line),was=S.flights[f.key],own=c.reg||(c.other?f.reg:was?.reg);
 let t={};if(gone())return;
 f.tried=line;drawForecast(t,was,true);
 try{for(let ids=[];;){const n=ids.length,lists=ids.map(reg=>JSON.stringify({cmd:"list",reg}));t=await tryLines([...lists,line,...lists]);if(gone())return;
   const regs=s=>new Map(s.regs.map(r=>[r.reg,r])),rows=at=>new Map(ids.flatMap((reg,i)=>(t.replies[at+i].list?.rows||[]).filter(r=>r.kind!=="forced").map(r=>[r.key,{reg,delay:r.cto-r.eto}])));
   t.reply=t.replies[n];t.regs=differ(regs(t.before),regs(t.after));t.flights=differ(rows(0),rows(n+1));
   t.left=t.reply.msgs?[...new Set([own,...t.regs.map(m=>m[0])])].filter(id=>id&&!ids.includes(id)):[];if(!t.left.length||n>30)break;
   ids=[...ids,...t.left].slice(0,31)}
  if(c.cmd==="rates"&&t.reply.done){t.rates=[];
   for(const d of[-4,-2,0,2,4,6]){const periods=c.periods.map(p=>({...p,rate:within(p.rate+d,601)})),s=d?await tryLines([JSON.stringify({...c,periods})]):t;if(gone())return;
    t.rates.push([d,totals(s.after).delay]);drawForecast(t,was,true)}}}
 catch(e){if(gone())return;t.wrong=e>0?({404:"This server can't try lines",413:"It is too much to be tried",503:"The server had no memory for it"}[e]||"The server did not try it")+` (${e}).`:"No answer came."}
 say(drawForecast(t,was)+" Nothing was sent.")}
function drawForecast({reply:r,regs,flights,rates,left,wrong,before,after},was,more){const words=wrong||(r?inWords(r,was):"…"),top=rates&&Math.max(60,...rates.map(p=>p[1])),
  figures=(name,id,x,y)=>{const all=FIGS.map(k=>[k,x[k]||0,y[k]||0]).filter(([,a,b])=>a!==b).map(([k,a,b],i)=>{const[p,q]=[a,b].map(n=>big(/delay|longest/.test(k)?Math.round(n/6)/10:n));
    return[i?", ":" ",h("span",{"data-reg":id,"data-fig":k,"data-before":a,"data-after":b},`${k==="over"?"without a slot":k} ${p} → ${q}`)]});return all.length>0&&h("li",h("b",name),all)},
  stands=(q,of)=>q.reg?(q.reg===of?"":q.reg+" ")+mins(q.delay)+" min":"none";
 $("forecast").hidden=false;$("forecast").setAttribute("aria-busy",!!more);
 fill("forecast",h("div.head",h("h2","Forecast"),h("span.hint","nothing was sent")),h("p.words",{id:"forecast-words"},words),r&&[h("p.hint",{id:"forecast-at","data-n":before.n},`It holds behind call ${before.n}. Delay in minutes:`),
  h("ul",{id:"forecast-figs"},figures("all","",totals(before),totals(after)),regs.map(([id,x,y])=>figures(id,id,x,y)),!regs.length&&h("li","no figure would change")),
  rates&&[h("p.hint","Delay of all, with so many flights an hour more:"),v("svg",{id:"forecast-rates",viewBox:"0 0 300 92"},rates.map(([d,delay],i)=>{const y=70-54*delay/top,x=i*50+25,text=(y,t,cls)=>v("text"+cls,{x,y,"text-anchor":"middle"},t);
   return v("g",{"data-shift":d,"data-delay":delay},v("rect.f-"+(d?"plan":"me"),{x:x-17,y,width:34,height:70-y}),text(y-4,big(Math.round(delay/60)),".v"),text(86,d?signed(d,Math.abs(d)):"these",d?"":".strong"))}))],
  flights.length>0&&[h("p.hint",{id:"forecast-count","data-count":flights.length},several(flights.length,"flight")+" with another regulation or delay:"),
   flights.slice(0,12).map(([k,x,y,d])=>h("button.offer",{type:"button","data-key":k,"data-reg-before":x.reg,"data-reg-after":y.reg,"data-delay-before":x.delay,"data-delay-after":y.delay},h("b",k),h("span",stands(x)+" → "+stands(y,x.reg)),h("span.num",signed(d,mins(Math.abs(d))+" min")))),
   flights.length>12&&h("p.hint",`and ${flights.length-12} more`)],left.length>0&&h("p.hint",`The flights of ${several(left.length,"regulation")} more are not looked at.`),
  h("p.hint",r.msgs?.length?"Messages that would go out:":"No message would go out."),h("ul",{id:"forecast-msgs"},told(r.msgs))]);
 return words}
on("try","click",()=>{const f=form,line=f.line;turn=turn.then(()=>forecast(f,line)).catch(()=>{})});
/* What casa tells: the state, a list, a flight, and what came of calls. Each is taken as it is told. */
let at=null;
const takeState=t=>{S.n=t.n;S.clock=t.clock;S.regs=t.regs};
const takeList=t=>{S.lists[t.list.reg]=t.list.rows.map(x=>[x.key,x.eto,x.cto,x.kind,x.slot]);S.fresh[t.list.reg]=t.n};
const takeFlight=t=>{const k=t.flight.key;S.flights[k]=t.flight;S.plans[k]=t.plan.via.map(c=>[c.loc,c.eto]);if(t.offers)S.reasons[k]=t};
const takeNews=t=>{for(const x of t.news){if(x.at!=null)at=x.at;for(const m of x.msgs)S.messages.push({at,desk:x.desk,...m})}S.messages=S.messages.slice(-5000)};
const most=(all,of)=>all.reduce((a,b)=>a&&of(a)>=of(b)?a:b,null);
const firstReg=()=>{if(!regOf(reg))reg=(most(S.regs,r=>r.delay)||{}).reg||null}, firstFlight=()=>{if(!key)key=(most(rowsOf(reg),q=>q[2]-q[1])||[null])[0]};
const say=text=>{$("said").textContent=text};
/* A live page asks for the state once a second; where that is another, for what came of the calls of all desks, for the list
   that is shown and for the flight that is picked; for nothing else. */
let busy=null, seen=null, lost=null, wait=1000, drawn=false;
async function get(path){const r=await fetch(path,{signal:AbortSignal.timeout(15000)});if(r.status===404)return null;if(!r.ok)throw new Error(r.status);return r.json()}
async function hear(n){const had=S.messages.length,heard=seen!=null;if(!heard)seen=Math.max(0,n-20000);
 while(seen<n){const t=await get("/since?"+seen);if(!t||t.n<=seen)break;takeNews(t);seen=t.n}
 const m=heard?S.messages.slice(had):[];if(m.length)say(`${several(m.length,"message")}: ${m.slice(0,3).map(x=>x.kind+" "+x.key).join(", ")}`)}
async function complete(){const r=reg,k=key,of="flight "+k,[list,flight]=await Promise.all([regOf(r)&&!(S.fresh[r]>=S.n)&&get("/list?"+r),k&&!(S.fresh[of]>=S.n)&&get("/flight?"+k)]);
 if(list){takeList(list);for(const[k]of rowsOf(r))S.flights[k]=S.flights[k]||{key:k}}
 if(flight){takeFlight(flight);S.fresh[of]=flight.n}else if(flight===null&&k)delete S.flights[k]}
async function ask(k){try{await complete();const f=S.flights[key];if(k&&k===key&&f&&regOf(f.reg)&&!rowOf(reg,k)){reg=f.reg;await complete()}
 draw();tell()}catch(e){}}
const look=()=>busy||(busy=see().finally(()=>{busy=null}));
async function see(){const t=await get("/state");
 if(t.n<S.n){S={...nothing(),day:S.day};seen=at=null;drawn=false;say("The server began anew.")}
 if(t.n===S.n&&drawn&&!lost)return;
 await hear(t.n);
 for(const id in S.lists)if(id!==reg&&!(form&&form.reg===id))delete S.lists[id];
 S.flights=S.flights[key]?{[key]:S.flights[key]}:{};if(lost)S.fresh={};
 takeState(t);firstReg();await complete();if(!key){firstFlight();await complete()}
 drawn=true;draw()}
function tell(){document.body.classList.toggle("away",!!lost);$("dot").className="dot"+(lost?" off":"");$("live").dataset.n=S.n;
 $("live").textContent=lost?`no answer for ${Math.round((Date.now()-lost)/1000)} s, tried again each ${wait/1000} s; call ${S.n}`:"live, call "+S.n;
 if(form&&form.act)check();
 const q=String(new URLSearchParams(Object.entries({...asked,reg,key}).filter(p=>p[1])));if(q!==location.search.slice(1))history.replaceState(null,"","?"+q)}
async function watch(){for(;;){
 try{await look();if(lost)say("The server answers again.");lost=null;wait=1000}
 catch(e){if(lost)wait=Math.min(5000,wait*2);else{lost=Date.now();say("The server does not answer.")}}
 tell();await new Promise(r=>setTimeout(r,wait))}}
const asked=Object.fromEntries(new URLSearchParams(location.search));
/* What stands at the end of the page is drawn as it is; where nothing does, the page asks the casa that served it. */
on(window,"DOMContentLoaded",()=>{if(asked.step==="60")step=60;reg=asked.reg||null;key=asked.key||null;S.day=asked.day||"";
 if(typeof RECORDED==="undefined"){live=true;watch();return}
 S.day=RECORDED.day;takeState(RECORDED.state);for(const list of RECORDED.lists)takeList({list,n:S.n});takeNews(RECORDED.since);(RECORDED.flights||[]).forEach(takeFlight);
 firstReg();firstFlight();$("dot").className="dot rec";$("live").textContent="a kept record, as after call "+S.n;$("live").dataset.n=S.n;draw()});
</script>
"##;
